use fact_base::Base;
use oim_names::Aliases;
use oim_report::{Sheet, read_report};
use oim_write::{BoundedSink, StdSink, WriteFault, prefixes, write_to};
use std::alloc::{AllocError, Global};
use std::test::Fail;
use test_helpers::asked_again::{SHEET, holds, may_repeat};
use test_helpers::devices::{Step, TestWriter, Then};

// After a refused request for memory, the call is repeated.

/// Two numbers whose rounding intervals touch.
pub(crate) const TOUCHING: &str =
    r#"{"documentInfo":{"documentType":"https://xbrl.org/2021/xbrl-json","namespaces":{"eg":"http://example.org/t"}},"facts":{"a":{"value":"100","decimals":0,"dimensions":{"concept":"eg:A"}},"b":{"value":"101","decimals":0,"dimensions":{"concept":"eg:A"}}}}"#;

/// A fact with names in two namespaces.
pub(crate) const EVERY_DIMENSION: &str =
    r#"{"documentInfo":{"documentType":"https://xbrl.org/2021/xbrl-json","namespaces":{"eg":"http://example.org/t","x":"http://example.org/u"}},"facts":{"a":{"value":"Blue","dimensions":{"concept":"eg:T","entity":"x:529900:A1","period":"2020-01-01T00:00:00/2020-12-31T24:00:00","language":"en-GB","eg:Reg":"eg:North","eg:Sku":"a b"}}}}"#;

pub(crate) fn sheet_of(alloc: Global, text: &str) -> Result<Sheet, AllocError> {
    match Sheet::read(alloc, text.as_bytes()) {
        Ok(sheet) => Ok(sheet),
        Err(_) => Err(AllocError),
    }
}

pub(crate) fn sheet(alloc: Global) -> Result<Sheet, AllocError> {
    sheet_of(alloc, SHEET)
}

pub(crate) fn base_of<'s>(
    alloc: Global,
    sheet: &'s Sheet,
    report: &str,
) -> Result<Base<'s>, AllocError> {
    let Ok(report) = read_report(alloc, sheet, report.as_bytes()) else {
        return Err(AllocError);
    };
    let mut base = Base::new(alloc, sheet);
    base.take(&report)?;
    Ok(base)
}

/// True if a sink that stops after seven bytes contains exactly the first seven bytes of the text,
/// and the fault reports seven.
fn takes_seven(alloc: Global, then: Then) -> Result<bool, AllocError> {
    let sheet = sheet(alloc)?;
    let base = Base::new(alloc, &sheet);
    let mut sink = StdSink::new(TestWriter::new(alloc, Step::All, 7, then)?);
    let ended = write_to(alloc, &base, &mut sink);
    if matches!(ended, Err(WriteFault::OutOfMemory(_))) {
        return Err(AllocError);
    }
    Ok(ended == Err(WriteFault::Device(7)) && sink.into_inner().held() == br#"{"docum"#.as_slice())
}

/// True if the text of an empty base, which has 183 bytes, ends so under this bound, and the bytes
/// that fit were written.
fn ends_bounded(
    alloc: Global,
    most: u64,
    wanted: Result<(), WriteFault>,
) -> Result<bool, AllocError> {
    let sheet = sheet(alloc)?;
    let base = Base::new(alloc, &sheet);
    let mut sink = BoundedSink::new(StdSink::new(Vec::new(alloc)), most);
    let ended = write_to(alloc, &base, &mut sink);
    let is_full = sink.overruns() > 0;
    if ended.is_err() && !is_full {
        return Err(AllocError);
    }
    let written = sink.into_inner().into_inner().len() as u64;
    Ok(ended == wanted && is_full == wanted.is_err() && written == most)
}

fn are_two(aliases: &Aliases) -> bool {
    aliases.uri("n2") == Some("http://example.org/u")
        && aliases.prefix_of("http://example.org/t") == Some("n1")
        && aliases.uri("n3") == None
}

fn has_two_prefixes(alloc: Global) -> Result<bool, AllocError> {
    let sheet = sheet(alloc)?;
    let base = base_of(alloc, &sheet, EVERY_DIMENSION)?;
    Ok(are_two(&prefixes(alloc, &base)?))
}

#[test]
fn a_sink_that_takes_seven_bytes_holds_these(rt: HostRuntime) -> Result<(), Fail> {
    for then in [Then::Ends, Then::Fails, Then::IsInterrupted] {
        let mut answer = takes_seven(rt.alloc(), then);
        if answer.is_err() && may_repeat(&rt) {
            answer = takes_seven(rt.alloc(), then);
        }
        assert!(rt; answer == Ok(true));
    }
    Ok(())
}

#[test]
fn prefixes_are_those_of_the_text(rt: HostRuntime) {
    assert!(rt; holds(&rt, has_two_prefixes));
}

#[test]
fn a_bounded_sink_takes_what_fits(rt: HostRuntime) -> Result<(), Fail> {
    for (most, wanted) in [(183, Ok(())), (182, Err(WriteFault::Device(182)))] {
        let mut answer = ends_bounded(rt.alloc(), most, wanted);
        if answer.is_err() && may_repeat(&rt) {
            answer = ends_bounded(rt.alloc(), most, wanted);
        }
        assert!(rt; answer == Ok(true));
    }
    Ok(())
}
