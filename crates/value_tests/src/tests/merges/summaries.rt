use super::{Counted, copied, merge, text};
use crate::tests::values::{UNIT, finite};
use merge_laws::{SortedMap, Summary};
use oim_value::{Decimals, Interval, Value, read_fixed};
use std::alloc::AllocError;
use std::test::Fail;
use test_helpers::asked_again::may_repeat;

// A summary has one item if it has ends.
impl Counted for Summary {
    fn item_count(&self) -> usize {
        if self.ends().is_some() { 1 } else { 0 }
    }
}

fn rounded(spelled: &str, places: i64) -> Summary {
    match read_fixed(spelled) {
        Ok(number) => Summary::of(&Value::Number(number, finite(places))),
        Err(_) => Summary::of(&Value::Nil),
    }
}

type Rounded = (&'static str, i64);

fn merge_all(
    rt: &HostRuntime,
    summary: &mut Summary,
    numbers: &[Rounded],
) -> Result<(), AllocError> {
    for (spelled, places) in numbers {
        merge(rt, summary, &rounded(spelled, *places))?;
    }
    Ok(())
}

fn has_ends(
    rt: &HostRuntime,
    numbers: &[Rounded],
    low: i128,
    high: i128,
) -> Result<bool, AllocError> {
    let mut summary = rounded("100", 0);
    merge_all(rt, &mut summary, numbers)?;
    Ok(summary.ends() == Some(Interval { low, high }) && !summary.nil())
}

// Numbers whose summaries are merged with the summary of 100, and the greatest low end and the
// least high end in units of 10^-19.
const ENDS: [(&[Rounded], i128, i128); 5] = [
    (&[("100", 0)], 995 * (UNIT / 10), 1005 * (UNIT / 10)),
    (&[("102", 0)], 1015 * (UNIT / 10), 1005 * (UNIT / 10)),
    (
        &[("102", 0), ("101", 0)],
        1015 * (UNIT / 10),
        1005 * (UNIT / 10),
    ),
    (
        &[("101", 0), ("102", 0)],
        1015 * (UNIT / 10),
        1005 * (UNIT / 10),
    ),
    // the wide interval of 104 changes neither end
    (
        &[("103", 0), ("104", -2)],
        1025 * (UNIT / 10),
        1005 * (UNIT / 10),
    ),
];

#[test]
fn a_summary_has_the_greatest_low_and_the_least_high_end(rt: HostRuntime) -> Result<(), Fail> {
    for (numbers, low, high) in &ENDS {
        assert!(rt; has_ends(&rt, numbers, *low, *high)?);
    }
    Ok(())
}

fn of_text(rt: &HostRuntime) -> Result<Summary, AllocError> {
    let value = Value::Text(text(rt, "100")?);
    Ok(Summary::of(&value))
}

#[test]
fn a_summary_tells_nil_and_number(rt: HostRuntime) -> Result<(), Fail> {
    let nil = Summary::of(&Value::Nil);
    assert!(rt; nil.ends() == None && nil.nil());
    let mut summary = of_text(&rt)?;
    assert!(rt; summary.ends() == None && !summary.nil());
    merge(&rt, &mut summary, &rounded("7", 0))?;
    assert!(rt; summary == rounded("7", 0) && !summary.nil());
    merge(&rt, &mut summary, &nil)?;
    assert!(rt; summary.nil() && summary.ends() == rounded("7", 0).ends());
    assert!(rt; copied(&rt, &summary)? == summary);
    Ok(())
}

type SummaryAt = SortedMap<Decimals, Summary>;

fn put(
    rt: &HostRuntime,
    map: &mut SummaryAt,
    key: i64,
    summary: &Summary,
) -> Result<(), AllocError> {
    match map.put(&finite(key), summary) {
        Err(_) if may_repeat(rt) => map.put(&finite(key), summary),
        done => done,
    }
}

// Puts the summary at each key from -18 to 18.
fn put_all(rt: &HostRuntime, map: &mut SummaryAt, summary: &Summary) -> Result<(), AllocError> {
    for key in -18..19i64 {
        put(rt, map, key, summary)?;
    }
    Ok(())
}

fn has_both(map: &SummaryAt, key: i64) -> bool {
    let both = Interval {
        low: 1015 * (UNIT / 10),
        high: 1005 * (UNIT / 10),
    };
    match map.get(&finite(key)) {
        Some(found) => found.ends() == Some(both),
        None => false,
    }
}

#[test]
fn summaries_at_one_key_are_merged(rt: HostRuntime) -> Result<(), Fail> {
    let mut map = SortedMap::new(rt.alloc());
    put_all(&rt, &mut map, &rounded("100", 0))?;
    put_all(&rt, &mut map, &rounded("102", 0))?;
    assert!(rt; map.len() == 37);
    assert!(rt; has_both(&map, -18) && has_both(&map, 0) && has_both(&map, 18));
    Ok(())
}
