use test_helpers::canonical_parts::{
    CONSISTENT_HEAD, CONTRADICTING_HEAD, END, HEAD, MIDDLE, MIDDLE_ALONE, ONE_URI, WRITTEN_HUNDRED,
};

/// Arguments and results: the status, the parts of the text on standard output, and the lines on
/// standard error.
pub(super) type Row = (&'static str, u8, &'static [&'static str], &'static str);

/// Arguments, the number of bytes that standard output takes, and the line that reports this
/// number.
pub(super) type Full = (&'static str, usize, &'static str);

pub(super) const SECOND: &str = "report 2: 13 UnboundPrefix at fact 1\n";

const TOO_LOOSE: &str = "too loose: row 1\n";

const NOT_JSON: &str = "report 1: 1 NotJson at document\n";

pub(super) const NOT_READ: &str = "file none: cannot be read\n";

const A_FOLDER: &str = "file .: cannot be read\n";

/// The merged text without facts.
const EMPTY: &[&str] = &[HEAD, MIDDLE_ALONE, END];

/// The merged text of one fact, with the value 100.
pub(super) const ONE: &[&str] = &[HEAD, ONE_URI, MIDDLE, WRITTEN_HUNDRED, END];

pub(super) const FIRST: &str =
    r#""f1":{"decimals":0,"dimensions":{"concept":"n1:A"},"value":"100"},"f2":{"decimals":0,"dimensions":{"concept":"n1:A"},"value":"#;

/// The merged text of two facts, with the values 100 and 101.
const BOTH: &[&str] = &[CONSISTENT_HEAD, ONE_URI, MIDDLE, FIRST, r#""101"}"#, END];

/// The merged text of two facts, with the values 100 and 102.
const WIDE: &[&str] = &[CONTRADICTING_HEAD, ONE_URI, MIDDLE, FIRST, r#""102"}"#, END];

pub(super) const MERGED: [Row; 7] = [
    ("merge --sheet sheet", 0, EMPTY, ""),
    ("merge --sheet sheet zz 100 zz zz", 0, ONE, ""),
    ("merge --sheet sheet empty", 1, EMPTY, NOT_JSON),
    (
        "merge --sheet sheet unbound 100 unbound",
        1,
        ONE,
        "report 1: 13 UnboundPrefix at fact 1\nreport 3: 13 UnboundPrefix at fact 1\n",
    ),
    (
        "merge --sheet sheet --allow consistent 100 101",
        0,
        BOTH,
        "",
    ),
    (
        "merge --sheet sheet --allow consistent 100 unbound 102",
        2,
        &[],
        "report 2: 13 UnboundPrefix at fact 1\ntoo loose: row 1\n",
    ),
    (
        "merge --sheet sheet --allow all 100 unbound 102",
        1,
        WIDE,
        SECOND,
    ),
];

/// The line for row 1 if its values are 100 and 101.
const TOUCHING: &[&str] = &["1 f1 f2 consistent common 100.5 100.5\n"];

const APART: &[&str] = &["1 f1 f2 inconsistent apart f1 f2\n"];

const ALIKE: &[&str] = &["1 f1 f1 complete\n"];

pub(super) const JUDGED: [Row; 9] = [
    ("verdicts --sheet sheet 100 101", 0, TOUCHING, ""),
    (
        "verdicts --sheet sheet three",
        0,
        &["1 f1 f3 inconsistent apart f1 f3\n"],
        "",
    ),
    (
        "verdicts --sheet sheet thousands",
        0,
        &["1 f1 f2 consistent common 1234067 1234067\n"],
        "",
    ),
    ("verdicts --sheet sheet below", 0, APART, ""),
    ("verdicts --sheet sheet zeros", 0, ALIKE, ""),
    ("verdicts --sheet sheet nil", 0, APART, ""),
    (
        "sources 101 unbound 100 --sheet sheet",
        1,
        &["f1 3 \"a\"\nf2 1 \"a\"\n"],
        SECOND,
    ),
    (
        "sources 101 unbound 100 --sheet sheet --format json",
        1,
        &[
            r#"{"report":3,"file":"100","identifier":"a","fact":"f1"}"#,
            "\n",
            r#"{"report":1,"file":"101","identifier":"a","fact":"f2"}"#,
            "\n",
        ],
        SECOND,
    ),
    (
        "sources --sheet sheet 100 --format csv --reports-from names",
        0,
        &["report,file,identifier,fact\r\n1,100,a,f1\r\n3,100,a,f1\r\n2,101,a,f2\r\n"],
        "",
    ),
];

/// A second line has the file of a refused report.
pub(super) const VERBOSE: [Row; 3] = [
    (
        "merge --sheet sheet 100 unbound --verbose",
        1,
        ONE,
        "report 2: 13 UnboundPrefix at fact 1\nFile: unbound\n",
    ),
    (
        "merge --verbose --sheet sheet --allow consistent 100 unbound 102",
        2,
        &[],
        "report 2: 13 UnboundPrefix at fact 1\nFile: unbound\ntoo loose: row 1\n",
    ),
    (
        "check --verbose --sheet sheet unbound",
        1,
        &[],
        "report 1: 13 UnboundPrefix at fact 1\nFile: unbound\n",
    ),
];

pub(super) const CHECKED: [Row; 13] = [
    (
        "check --sheet sheet canonical",
        0,
        &["accepted 0 none canonical\n"],
        "",
    ),
    (
        "check --sheet sheet twice",
        0,
        &["accepted 2 complete other\n"],
        "",
    ),
    (
        "check 100 --sheet sheet",
        0,
        &["accepted 1 none other\n"],
        "",
    ),
    (
        "check --sheet sheet thousands",
        0,
        &["accepted 2 consistent other\n"],
        "",
    ),
    (
        "check --sheet sheet three",
        0,
        &["accepted 3 all other\n"],
        "",
    ),
    (
        "check --sheet sheet zeros",
        0,
        &["accepted 4 complete other\n"],
        "",
    ),
    // several reports, a list or a format: lines with the numbers of the reports
    ("check --sheet sheet", 0, &[], ""),
    (
        "check canonical unbound 100 empty three --sheet sheet",
        1,
        &[
            "report 1: accepted 0 none canonical\nreport 3: accepted 1 none other\n",
            "report 5: accepted 3 all other\n",
        ],
        "report 2: 13 UnboundPrefix at fact 1\nreport 4: 1 NotJson at document\n",
    ),
    (
        "check --sheet sheet twice --reports-from names",
        0,
        &[
            "report 1: accepted 2 complete other\nreport 2: accepted 1 none other\n",
            "report 3: accepted 1 none other\n",
        ],
        "",
    ),
    (
        "check --sheet sheet --format lines twice",
        0,
        &["report 1: accepted 2 complete other\n"],
        "",
    ),
    (
        "check --sheet sheet unbound canonical --format json",
        1,
        &[
            r#"{"report":2,"file":"canonical","facts":0,"level":"none","canonical":true}"#,
            "\n",
        ],
        "report 1: 13 UnboundPrefix at fact 1\n",
    ),
    (
        "check --sheet sheet --format csv thousands canonical",
        0,
        &[
            "report,file,facts,level,canonical\r\n1,thousands,2,consistent,false\r\n",
            "2,canonical,0,none,true\r\n",
        ],
        "",
    ),
    (
        "check --sheet sheet 100 unbound none zeros --format csv",
        3,
        &[],
        NOT_READ,
    ),
];

/// Each row names an output file, or `-` for standard output. Runs that end with status 2 or 3 leave the file `out` unchanged.
pub(super) const WRITTEN: [Row; 12] = [
    ("merge --sheet sheet empty 100 -o out", 1, &[], NOT_JSON),
    (
        "merge --sheet sheet 100 101 --allow none -o out",
        2,
        &[],
        TOO_LOOSE,
    ),
    ("verdicts --sheet sheet 100 none -o out", 3, &[], NOT_READ),
    ("merge --sheet sheet --output=out -- out", 0, &[], ""),
    ("merge --sheet sheet 100 -o -", 0, ONE, ""),
    (
        "check --sheet sheet 100 -o .",
        3,
        &[],
        "file .: cannot be written\n",
    ),
    (
        "merge --sheet sheet -o none/out",
        3,
        &[],
        "file none/out: cannot be written\n",
    ),
    // a refused report is not replaced, under another name either
    (
        "merge --sheet sheet 100 unbound -o unbound",
        3,
        &[],
        "file unbound: cannot be written\n",
    ),
    (
        "check --sheet sheet unbound -o ./unbound --verbose",
        3,
        &[],
        "file ./unbound: cannot be written\nIt is a refused report; use another name for the output.\n",
    ),
    (
        "explain --sheet sheet 100 ./unbound -o unbound",
        3,
        &[],
        "file unbound: cannot be written\n",
    ),
    (
        "check --sheet sheet unbound",
        1,
        &[],
        "report 1: 13 UnboundPrefix at fact 1\n",
    ),
    (
        "merge --sheet sheet unbound out -o out",
        1,
        &[],
        "report 1: 13 UnboundPrefix at fact 1\n",
    ),
];

/// The output may have this many bytes. If it has more, the first ones are printed, and an output
/// file stays as it was.
pub(super) const BOUNDED: [Row; 4] = [
    ("merge --sheet sheet 100 --most-output 276", 0, ONE, ""),
    (
        "check --most-output 25 --sheet sheet twice",
        3,
        &["accepted 2 complete other"],
        "output: more than 25 bytes; --most-output BYTES sets the bound\n",
    ),
    (
        "explain --most-output 10 --sheet sheet 100",
        3,
        &["reports: 1"],
        "output: more than 10 bytes; --most-output BYTES sets the bound\n",
    ),
    (
        "merge --sheet sheet 101 100 --most-output=276 -o out",
        3,
        &[],
        "output: more than 276 bytes; --most-output BYTES sets the bound\n",
    ),
];

/// Arguments, and the progress that a terminal shows.
pub(super) const SHOWN: [(&str, &str); 3] = [
    (
        "verdicts --sheet sheet 100 101",
        "\r0 of 2 reports, 0 MB\r1 of 2 reports, 0 MB\r\x1b[K",
    ),
    (
        "verdicts --sheet sheet long long 100",
        "\r0 of 3 reports, 0 MB\r1 of 3 reports, 0 MB\r2 of 3 reports, 1 MB\r\x1b[K",
    ),
    ("merge --sheet sheet 100 --quiet", ""),
];

/// A file lists reports, which follow the reports in the arguments.
pub(super) const LISTED: [Row; 6] = [
    ("merge --sheet sheet --reports-from names", 0, BOTH, ""),
    ("merge --sheet sheet --reports-from marked", 0, BOTH, ""),
    (
        "merge --sheet sheet --reports-from empty",
        3,
        &[],
        "file empty: names no report\n",
    ),
    (
        "merge --sheet sheet --reports-from ended",
        3,
        &[],
        "file 101\\u0000100: cannot be read\n",
    ),
    (
        "verdicts --sheet sheet --reports-from none",
        3,
        &[],
        NOT_READ,
    ),
    (
        "merge --sheet list --reports-from -",
        3,
        &[],
        "file -: cannot be read\n",
    ),
];

/// A file that cannot be read, or a refused sheet, ends the run. Only the line about this cause is
/// printed.
pub(super) const STOPPED: [Row; 12] = [
    ("merge --sheet none", 3, &[], NOT_READ),
    ("verdicts --sheet none list", 3, &[], NOT_READ),
    ("check --sheet none list", 3, &[], NOT_READ),
    ("merge --sheet sheet 100 none", 3, &[], NOT_READ),
    ("merge --sheet sheet unbound none .", 3, &[], NOT_READ),
    ("verdicts --sheet sheet unbound none", 3, &[], NOT_READ),
    ("check --sheet sheet none", 3, &[], NOT_READ),
    ("merge --sheet sheet . none", 3, &[], A_FOLDER),
    ("check --sheet . none", 3, &[], A_FOLDER),
    ("merge --sheet sheet -", 3, &[], "file -: cannot be read\n"),
    ("merge --sheet list none", 3, &[], "sheet: 2 MemberForm\n"),
    ("verdicts --sheet empty none", 3, &[], "sheet: 1 NotJson\n"),
];

/// The status and standard output when standard error takes only three bytes.
pub(super) const UNHEARD: [Row; 4] = [
    (
        "merge --sheet sheet --allow none 100 unbound 101",
        2,
        &[],
        "",
    ),
    ("merge", 3, &[], ""),
    ("merge --sheet none", 3, &[], ""),
    ("verdicts --sheet sheet unbound 100", 1, ALIKE, ""),
];

/// Standard output fills up, and the line reports how many bytes it took.
pub(super) const FULL: [Full; 5] = [
    ("merge --sheet sheet 100", 0, "device: 0 bytes written\n"),
    (
        "merge --sheet sheet 100",
        275,
        "device: 275 bytes written\n",
    ),
    (
        "verdicts --sheet sheet 100 unbound",
        3,
        "device: 3 bytes written\n",
    ),
    (
        "check --sheet sheet twice",
        25,
        "device: 25 bytes written\n",
    ),
    (
        "check --sheet sheet unbound twice 100",
        40,
        "device: 40 bytes written\n",
    ),
];

/// Standard output takes all bytes, but the flush fails. A run that cannot read a file does not
/// flush.
pub(super) const UNFLUSHED: [(&str, &str); 7] = [
    ("merge --sheet sheet 100", "device: 276 bytes written\n"),
    (
        "verdicts --sheet sheet 100 unbound",
        "device: 17 bytes written\n",
    ),
    ("check --sheet sheet twice", "device: 26 bytes written\n"),
    ("check --sheet sheet unbound", "device: 0 bytes written\n"),
    (
        "merge --sheet sheet --allow none 100 101",
        "device: 0 bytes written\n",
    ),
    ("--version", "device: 20 bytes written\n"),
    ("merge --sheet none", NOT_READ),
];
