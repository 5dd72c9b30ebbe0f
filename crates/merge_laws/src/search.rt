ghost use Rattle.std.specs.Prelude.{◌≡◌, ◌≤◌, length};
ghost use Rattle.std.specs.List.{AllWithin};
ghost use Rattle.std.specs.List.Sorted.{IsSearchInRange};
ghost use Rattle.std.specs.declared.cmp.Ordering.TheVariants.{Less as Below, Greater as Above};
ghost use Rattle.merge_laws.specs.code.Insertions.{found_at};
ghost use Rattle.merge_laws.specs.Sorted.{IsRising};

use oim_names::Key;
use std::cmp::Ordering;

/// An item of a list that is sorted by keys.
pub(crate) trait Keyed<K: Key> {
    ghost key_of: { Self → K };

    fn key(&self) -> &K
        ensures { result.now ≡ key_of self.now };
}

/// An item of a set is its own key.
impl<T: Key> Keyed<T> for T {
    ghost use Rattle.merge_laws.specs.Sorted.{itself};

    ghost key_of = { itself };

    fn key(&self) -> &T {
        self
    }
}

impl<K: Key, V> Keyed<K> for (K, V) {
    ghost use Rattle.merge_laws.specs.Sorted.{entry_key};

    ghost key_of = { entry_key };

    fn key(&self) -> &K {
        &self.0
    }
}

/// A key above the last key takes a single comparison, so adding ascending keys needs no binary
/// search.
pub(crate) fn find<K: Key, E: Keyed<K>>(items: &[E], key: &K) -> Result<usize, usize>
    requires { IsRising K.cmp E.key_of items.now }
    ensures index { result ≡ found_at K.cmp E.key_of key.now items.now }
    ensures bound { IsSearchInRange result (length items.now) }
{
    match items.last() {
        Some(last) if last.key().cmp(key).is_lt() => Err(items.len()),
        _ => halve(items, key, 0, items.len()),
    }
}

/// Searches from index `from`, and about doubles the step each time, so a key near that index is
/// found in few steps.
pub(crate) fn find_from<K: Key, E: Keyed<K>>(
    items: &[E],
    key: &K,
    from: usize,
) -> Result<usize, usize>
    requires rises { IsRising K.cmp E.key_of items.now }
    requires within { from ≤ length items.now }
    requires below { AllWithin (λ e. K.cmp (E.key_of e) key.now ≡ Below) items.now 0 from }
    ensures index { result ≡ found_at K.cmp E.key_of key.now items.now }
    ensures bound { IsSearchInRange result (length items.now) }
{
    let mut low = from;
    let mut step = 0usize;
    while step < items.len() - low {
        let probe = low + step;
        match items[probe].key().cmp(key) {
            Ordering::Less => low = probe + 1,
            Ordering::Equal => return Ok(probe),
            Ordering::Greater => return halve(items, key, low, probe),
        }
        step = step.saturating_mul(2).saturating_add(1);
    }
    halve(items, key, low, items.len())
}

// Binary search.
fn halve<K: Key, E: Keyed<K>>(items: &[E], key: &K, from: usize, to: usize) -> Result<usize, usize>
    requires rises { IsRising K.cmp E.key_of items.now }
    requires order { from ≤ to }
    requires within { to ≤ length items.now }
    requires below { AllWithin (λ e. K.cmp (E.key_of e) key.now ≡ Below) items.now 0 from }
    requires above { AllWithin (λ e. K.cmp (E.key_of e) key.now ≡ Above) items.now to (length items.now) }
    ensures index { result ≡ found_at K.cmp E.key_of key.now items.now }
    ensures bound { IsSearchInRange result (length items.now) }
{
    let mut low = from;
    let mut high = to;
    while low < high {
        let middle = low + (high - low) / 2;
        match items[middle].key().cmp(key) {
            Ordering::Less => low = middle + 1,
            Ordering::Equal => return Ok(middle),
            Ordering::Greater => high = middle,
        }
    }
    Err(low)
}
