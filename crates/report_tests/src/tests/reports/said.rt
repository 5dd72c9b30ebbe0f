use super::{END, FACT, SHEET, joined, read, read_sheet};
use oim_dims::{Dimensions, Fact, Member, Period};
use oim_names::Name;
use oim_report::Sheet;
use oim_value::Value;
use std::alloc::AllocError;
use std::test::Fail;

// The expected contents of a fact.
enum Said {
    Blue,
    NilMember,
    Number(i128, Option<i8>),
    North,
    HasUnit(bool),
}

fn has_parts(name: &Name, uri: &str, local: &str) -> bool {
    name.uri() == uri && name.local() == local
}

fn has_core_dimensions(dimensions: &Dimensions) -> bool {
    let Some(entity) = dimensions.entity() else {
        return false;
    };
    let Some(language) = dimensions.language() else {
        return false;
    };
    has_parts(dimensions.concept(), "http://example.org/t", "T")
        && has_parts(entity, "http://example.org/u", "529900:A1")
        && language.as_str() == "en-gb"
        && dimensions.unit().is_none()
}

fn lasts(period: Period, start: i64, end: i64) -> bool {
    match period {
        Period::Duration(from, to) => from.seconds() == start && to.seconds() == end,
        _ => false,
    }
}

fn has_example_members(dimensions: &Dimensions) -> bool {
    match dimensions.members() {
        [(region, Member::Name(north)), (product, Member::Text(text))] => {
            has_parts(region, "http://example.org/t", "Reg")
                && has_parts(north, "http://example.org/t", "North")
                && has_parts(product, "http://example.org/t", "Sku")
                && text.as_str() == "a b"
        }
        _ => false,
    }
}

fn is_blue(fact: &Fact) -> bool {
    has_core_dimensions(&fact.dimensions)
        && lasts(fact.dimensions.period(), 1577836800, 1609459200)
        && has_example_members(&fact.dimensions)
        && matches!(&fact.value, Value::Text(text) if text.as_str() == "Blue")
}

fn says(fact: &Fact, said: &Said) -> bool {
    match said {
        Said::Blue => is_blue(fact),
        Said::NilMember => {
            matches!(fact.dimensions.members(), [(_, Member::Nil)])
                && matches!(&fact.value, Value::Nil)
        }
        Said::Number(units, places) => {
            matches!(&fact.value, Value::Number(number, decimals) if number.units() == *units && decimals.get() == *places)
        }
        Said::North => {
            matches!(&fact.value, Value::Name(name) if has_parts(name, "http://example.org/t", "North"))
        }
        Said::HasUnit(there) => fact.dimensions.unit().is_some() == *there,
    }
}

fn is_read_so(rt: &HostRuntime, sheet: &Sheet, report: &[u8], said: &Said) -> bool {
    match read(rt, sheet, report) {
        Ok(report) => matches!(report.facts(), [fact] if says(fact, said)),
        Err(_) => false,
    }
}

fn is_said(rt: &HostRuntime, sheet: &Sheet, fact: &str, said: &Said) -> Result<bool, AllocError> {
    let report = joined(rt, &[FACT, fact, END])?;
    Ok(is_read_so(rt, sheet, &report, said))
}

const BLUE: &str =
    r#"{"value":"Blue","dimensions":{"concept":"eg:T","entity":"x:529900:A1","period":"2020-01-01T00:00:00/2020-12-31T24:00:00","language":"en-GB","eg:Reg":"eg:North","eg:Sku":"a b"}}"#;

const READ: [(&str, Said); 7] = [
    // core dimensions are read; a member is read as the kind of its dimension requires
    (BLUE, Said::Blue),
    // a typed member may be nil
    (
        r#"{"value":null,"dimensions":{"concept":"eg:Q","language":"en","eg:Sku":null}}"#,
        Said::NilMember,
    ),
    // numbers without decimals are exact
    (
        r#"{"value":"1","dimensions":{"concept":"eg:A"}}"#,
        Said::Number(10_000_000_000_000_000_000, None),
    ),
    (
        r#"{"value":"1.","decimals":0,"dimensions":{"concept":"eg:A"},"links":{}}"#,
        Said::Number(10_000_000_000_000_000_000, Some(0)),
    ),
    // the value of a name concept is read as a URI and a local part
    (
        r#"{"value":"eg:North","dimensions":{"concept":"eg:Q"}}"#,
        Said::North,
    ),
    // `pure` alone is not a unit, but `pure` over another measure is one
    (
        r#"{"value":"1","dimensions":{"concept":"eg:A","unit":"(xbrli:pure)"}}"#,
        Said::HasUnit(false),
    ),
    (
        r#"{"value":"1","dimensions":{"concept":"eg:A","unit":"xbrli:pure/x:c"}}"#,
        Said::HasUnit(true),
    ),
];

#[test]
fn facts_say_what_is_written(rt: HostRuntime) -> Result<(), Fail> {
    let sheet = read_sheet(&rt, SHEET)?;
    for (text, said) in &READ {
        assert!(rt; is_said(&rt, &sheet, text, said)?, "{text}");
    }
    Ok(())
}
