ghost use Rattle.std.specs.Prelude.{◌≡◌, ◌+◌, ◌^◌, ◌<◌, ◌++◌, length, true};
ghost use Rattle.std.specs.List.{before_first, after_first, position_or_len, list_all};
ghost use Rattle.std.specs.Char.{is_ascii_digit};
ghost use Rattle.std.specs.Str.Parse.{digits_value_after};
ghost use Rattle.oim_value.specs.Number.{is_negative, is_numeral, is_point, unsigned, without_leading, without_trailing};

pub(crate) fn split_sign(text: &[u8]) -> (bool, &[u8])
    ensures negative { result.0 ≡ is_negative text.now }
    ensures rest { result.1.now ≡ unsigned text.now }
{
    match text {
        [b'-', rest @ ..] => (true, rest),
        [b'+', rest @ ..] => (false, rest),
        _ => (false, text),
    }
}

pub(crate) fn split_point(body: &[u8]) -> (&[u8], &[u8])
    ensures integer { result.0.now ≡ before_first is_point body.now }
    ensures fraction { result.1.now ≡ after_first is_point body.now }
{
    let at = point_index(body);
    if at < body.len() {
        (&body[..at], &body[at + 1..])
    } else {
        (body, &body[body.len()..])
    }
}

fn point_index(body: &[u8]) -> usize
    ensures { result ≡ position_or_len is_point body.now }
{
    for (i, c) in body.iter().enumerate() {
        if *c == b'.' {
            return i;
        }
    }
    body.len()
}

pub(crate) fn are_digits(integer: &[u8], fraction: &[u8]) -> bool
    ensures { result ≡ is_numeral (integer.now ++ fraction.now) }
{
    integer.len() + fraction.len() > 0 && all_digits(integer) && all_digits(fraction)
}

fn all_digits(digits: &[u8]) -> bool
    ensures { result ≡ list_all is_ascii_digit digits.now }
{
    digits.iter().all(|c| c.is_ascii_digit())
}

pub(crate) fn skip_leading_zeros(digits: &[u8]) -> &[u8]
    ensures { result.now ≡ without_leading digits.now }
{
    let mut rest = digits;
    while let [b'0', tail @ ..] = rest {
        rest = tail;
    }
    rest
}

pub(crate) fn skip_trailing_zeros(digits: &[u8]) -> &[u8]
    ensures { result.now ≡ without_trailing digits.now }
{
    let mut end = digits.len();
    while end > 0 && digits[end - 1] == b'0' {
        end -= 1;
    }
    &digits[..end]
}

pub(crate) fn append_digits(start: u64, digits: &[u8]) -> u64
    requires digits { list_all is_ascii_digit digits.now ≡ true }
    requires fits { digits_value_after 10 start digits.now < 2 ^ 64 }
    ensures { result ≡ digits_value_after 10 start digits.now }
{
    let mut number = start;
    for c in digits {
        number = number * 10 + u64::from(*c - b'0');
    }
    number
}
