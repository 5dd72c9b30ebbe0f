use crate::tests::ran::NO_WORDS;
use command_line::{Streams, run};
use std::test::Fail;
use test_helpers::asked_again::may_repeat;
use test_helpers::devices::{FullAfter, Step, TestReader, Then};
use test_helpers::expecting::Expecting;

/// Returns whether the program ends with status 3 and prints exactly these lines on standard error,
/// when standard input and standard error are terminals.
fn shows_once(rt: &HostRuntime, words: &[&str], input: &[u8], lines: &str) -> bool {
    let mut err = Expecting::just(lines.as_bytes());
    let streams = Streams {
        input: TestReader::new(input, Step::All, Then::Ends),
        out: FullAfter::new(0),
        err: &mut err,
        is_input_terminal: true,
        is_err_terminal: true,
    };
    let status = run(rt.alloc(), rt, words, streams).status;
    status == 3 && err.is_met()
}

// Runs the program again if the status or the lines differ: memory may have been refused.
fn shows(rt: &HostRuntime, words: &[&str], input: &[u8], lines: &str) -> bool {
    shows_once(rt, words, input, lines) || may_repeat(rt) && shows_once(rt, words, input, lines)
}

#[test]
fn a_bundle_is_awaited(rt: HostRuntime) -> Result<(), Fail> {
    let lines =
        "Waiting for a bundle on standard input; `xbrlmerge --help` shows the commands.\nsheet: 1 NotJson\n";
    assert!(rt; shows(&rt, NO_WORDS, b"", lines));
    Ok(())
}

#[test]
fn it_is_told_why_a_file_cannot_be_read(rt: HostRuntime) -> Result<(), Fail> {
    let missing = ["check", "--sheet", "none", "r"];
    let folder = ["check", "--sheet", ".", "r"];
    let none = "file none: cannot be read\nThere is no such file.\n";
    assert!(rt; shows(&rt, missing.as_slice(), b"", none));
    assert!(rt;
        shows(
            &rt,
            folder.as_slice(),
            b"",
            "file .: cannot be read\nIt is a folder.\n"
        )
    );
    Ok(())
}

#[test]
fn names_look_different(rt: HostRuntime) -> Result<(), Fail> {
    let like_an_escape = ["check", "--sheet", "l\\u000a", "r"];
    let with_end = ["check", "--sheet", "l\n", "r"];
    let with_backslash = ["check", "--sheet", "C:\\l", "r"];
    let unlike = "file l\\\\u0075000a: cannot be read\nThere is no such file.\n";
    let escaped = "file l\\u000a: cannot be read\nThere is no such file.\n";
    let as_it_is = "file C:\\l: cannot be read\nThere is no such file.\n";
    assert!(rt; shows(&rt, like_an_escape.as_slice(), b"", unlike));
    assert!(rt; shows(&rt, with_end.as_slice(), b"", escaped));
    assert!(rt; shows(&rt, with_backslash.as_slice(), b"", as_it_is));
    Ok(())
}

#[test]
fn standard_input_names_reports(rt: HostRuntime) -> Result<(), Fail> {
    let words = ["verdicts", "--sheet", "none", "--reports-from", "-"];
    let none = "file none: cannot be read\nThere is no such file.\n";
    assert!(rt; shows(&rt, words.as_slice(), b"\n", "file -: names no report\n"));
    assert!(rt;
        shows(
            &rt,
            words.as_slice(),
            b"\xef\xbb\xbf\n",
            "file -: names no report\n"
        )
    );
    let unlike_text = "file -: cannot be read\nIt is not UTF-8.\n";
    assert!(rt; shows(&rt, words.as_slice(), b"\xe4.json", unlike_text));
    assert!(rt; shows(&rt, words.as_slice(), b"r", none));
    Ok(())
}
