ghost use Rattle.std.specs.Prelude.{◌≡◌, ◌+◌, ◌-◌, ◌^◌, ◌<◌, OnOk};

use oim_merge::{Consolidation, Fault, Refusals, TracedMerge};
use oim_report::Sheet;
use oim_write::{Encoded, Sink, StdSink};
use row_formats::{RowFormat, SourceRows};
use std::alloc::{AllocError, Global};
use test_helpers::asked_again::{SHEET, may_repeat};

// Compares rows in the formats of `row_formats` with rows written by hand. The rows have
// every verdict and every kind of value. After a refused request for memory, the call is repeated.

const FIRST: &[u8] =
    br#"{"documentInfo":{"documentType":"https://xbrl.org/2021/xbrl-json","namespaces":{"eg":"http://example.org/t","x":"http://example.org/u"}},"facts":{"p":{"value":"100","decimals":0,"dimensions":{"concept":"eg:A","entity":"x:E1","period":"2024-01-01T00:00:00/2025-01-01T00:00:00","unit":"eg:USD","eg:Reg":"eg:N"}},"-q":{"value":"=1, \"x\"","dimensions":{"concept":"eg:T","language":"en"}},"r":{"value":null,"dimensions":{"concept":"eg:B","eg:Sku":"s,1"}},"s":{"value":"eg:N","dimensions":{"concept":"eg:Q"}}}}"#;

const REFUSED: &[u8] = b"{}";

const SECOND: &[u8] =
    br#"{"documentInfo":{"documentType":"https://xbrl.org/2021/xbrl-json","namespaces":{"eg":"http://example.org/t","x":"http://example.org/u"}},"facts":{"p":{"value":"100.2","decimals":1,"dimensions":{"concept":"eg:A","entity":"x:E1","period":"2024-01-01T00:00:00/2025-01-01T00:00:00","unit":"eg:USD","eg:Reg":"eg:N"}},"q":{"value":"two","dimensions":{"concept":"eg:T","language":"en"}}}}"#;

const VERDICTS_JSON: &[u8] =
    br#"{"row":1,"verdict":"consistent","dimensions":{"concept":"{http://example.org/t}A","entity":"{http://example.org/u}E1","{http://example.org/t}Reg":"{http://example.org/t}N","period":"2024-01-01T00:00:00/2025-01-01T00:00:00","unit":"{http://example.org/t}USD"},"facts":[{"fact":"f1","value":"100","decimals":0},{"fact":"f2","value":"100.2","decimals":1}],"evidence":{"common":{"low":"100.15","high":"100.25"}}}
{"row":2,"verdict":"complete","dimensions":{"concept":"{http://example.org/t}B","{http://example.org/t}Sku":"s,1"},"facts":[{"fact":"f3","value":null}]}
{"row":3,"verdict":"complete","dimensions":{"concept":"{http://example.org/t}Q"},"facts":[{"fact":"f4","value":"{http://example.org/t}N"}]}
{"row":4,"verdict":"inconsistent","dimensions":{"concept":"{http://example.org/t}T","language":"en"},"facts":[{"fact":"f5","value":"=1, \"x\""},{"fact":"f6","value":"two"}],"evidence":{"apart":["f5","f6"]}}
"#;

// The third report has no file.
static FILES: [&str; 2] = ["=1, \"x\".json", "two.json"];

const SOURCES_JSON: &[u8] = br#"{"report":1,"file":"=1, \"x\".json","identifier":"p","fact":"f1"}
{"report":3,"file":null,"identifier":"p","fact":"f2"}
{"report":1,"file":"=1, \"x\".json","identifier":"r","fact":"f3"}
{"report":1,"file":"=1, \"x\".json","identifier":"s","fact":"f4"}
{"report":1,"file":"=1, \"x\".json","identifier":"-q","fact":"f5"}
{"report":3,"file":null,"identifier":"q","fact":"f6"}
"#;

const VERDICTS_CSV: &[u8] =
    b"row,verdict,fact,concept,entity,period,unit,language,dimensions,value,nil,decimals,common_low,common_high,apart_first,apart_second\r
1,consistent,f1,{http://example.org/t}A,{http://example.org/u}E1,2024-01-01T00:00:00/2025-01-01T00:00:00,{http://example.org/t}USD,,\"{\"\"{http://example.org/t}Reg\"\":\"\"{http://example.org/t}N\"\"}\",100,,0,100.15,100.25,,\r
1,consistent,f2,{http://example.org/t}A,{http://example.org/u}E1,2024-01-01T00:00:00/2025-01-01T00:00:00,{http://example.org/t}USD,,\"{\"\"{http://example.org/t}Reg\"\":\"\"{http://example.org/t}N\"\"}\",100.2,,1,100.15,100.25,,\r
2,complete,f3,{http://example.org/t}B,,,,,\"{\"\"{http://example.org/t}Sku\"\":\"\"s,1\"\"}\",,true,,,,,\r
3,complete,f4,{http://example.org/t}Q,,,,,,{http://example.org/t}N,,,,,,\r
4,inconsistent,f5,{http://example.org/t}T,,,,en,,\"=1, \"\"x\"\"\",,,,,f5,f6\r
4,inconsistent,f6,{http://example.org/t}T,,,,en,,two,,,,,f5,f6\r
";

const SOURCES_SPREADSHEET: &[u8] = b"\xef\xbb\xbfreport,file,identifier,fact\r
1,\"'=1, \"\"x\"\".json\",p,f1\r
3,,p,f2\r
1,\"'=1, \"\"x\"\".json\",r,f3\r
1,\"'=1, \"\"x\"\".json\",s,f4\r
1,\"'=1, \"\"x\"\".json\",'-q,f5\r
3,,q,f6\r
";

#[derive(Clone, Copy)]
enum Call {
    Verdicts,
    Sources,
}

fn reports(alloc: Global) -> Result<Vec<Encoded>, AllocError> {
    let mut reports = Vec::new(alloc);
    for report in [FIRST, REFUSED, SECOND] {
        reports.push(Encoded::new(alloc, report)?)?;
    }
    Ok(reports)
}

fn add_once(consolidation: &mut Consolidation<'_>, report: &[u8]) -> Result<(), AllocError>
    requires { consolidation.old.reports + 1 < 2 ^ 64 }
    ensures { OnOk result (consolidation.new.reports ≡ consolidation.old.reports + 1) }
{
    consolidation.add(report)
}

fn add_three(consolidation: &mut Consolidation<'_>) -> Result<(), AllocError>
    requires { consolidation.old.reports + 3 < 2 ^ 64 }
{
    add_once(consolidation, FIRST)?;
    add_once(consolidation, REFUSED)?;
    add_once(consolidation, SECOND)
}

fn added<'s>(alloc: Global, sheet: &'s Sheet) -> Result<Consolidation<'s>, AllocError> {
    let mut consolidation = Consolidation::new(alloc, sheet);
    add_three(&mut consolidation)?;
    Ok(consolidation)
}

fn sources<S: Sink>(
    alloc: Global,
    sheet: &Sheet,
    format: RowFormat,
    sink: &mut S,
) -> Result<Refusals, Fault>
    requires { S.failures sink.old < 2 ^ 64 - 1 }
{
    let reports = reports(alloc)?;
    let rows = SourceRows {
        format,
        files: FILES.as_slice(),
    };
    TracedMerge::of(alloc, sheet, &reports)?.finish(&rows, sink)
}

fn verdicts<S: Sink>(
    alloc: Global,
    sheet: &Sheet,
    format: RowFormat,
    sink: &mut S,
) -> Result<Refusals, Fault>
    requires { S.failures sink.old < 2 ^ 64 - 1 }
{
    added(alloc, sheet)?.finish_verdicts(&format, sink)
}

fn asked<S: Sink>(
    alloc: Global,
    call: Call,
    format: RowFormat,
    sink: &mut S,
) -> Result<Refusals, Fault>
    requires { S.failures sink.old < 2 ^ 64 - 1 }
{
    let Ok(sheet) = Sheet::read(alloc, SHEET.as_bytes()) else {
        return Err(Fault::OutOfMemory(0));
    };
    match call {
        Call::Sources => sources(alloc, &sheet, format, sink),
        Call::Verdicts => verdicts(alloc, &sheet, format, sink),
    }
}

/// True if the call writes exactly these bytes and returns one refusal.
fn writes(alloc: Global, call: Call, format: RowFormat, wanted: &[u8]) -> Result<bool, AllocError> {
    let mut sink = StdSink::new(Vec::new(alloc));
    match asked(alloc, call, format, &mut sink) {
        Ok(refused) => Ok(sink.into_inner().as_slice() == wanted && refused.as_slice().len() == 1),
        Err(_) => Err(AllocError),
    }
}

fn holds(rt: &HostRuntime, call: Call, format: RowFormat, wanted: &[u8]) -> bool {
    let mut answer = writes(rt.alloc(), call, format, wanted);
    if answer.is_err() && may_repeat(rt) {
        answer = writes(rt.alloc(), call, format, wanted);
    }
    answer == Ok(true)
}

const ROWS: [(Call, RowFormat, &[u8]); 4] = [
    (Call::Verdicts, RowFormat::Json, VERDICTS_JSON),
    (Call::Sources, RowFormat::Json, SOURCES_JSON),
    (Call::Verdicts, RowFormat::Csv, VERDICTS_CSV),
    // no cell of a spreadsheet is a formula
    (
        Call::Sources,
        RowFormat::SpreadsheetCsv,
        SOURCES_SPREADSHEET,
    ),
];

#[test]
fn rows_are_written_in_each_format(rt: HostRuntime) {
    for (index, (call, format, wanted)) in ROWS.iter().enumerate() {
        assert!(rt; holds(&rt, *call, *format, wanted), "{index}");
    }
}
