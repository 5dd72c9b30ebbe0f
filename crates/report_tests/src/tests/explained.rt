use oim_explain::{Format, Input, SheetNames, explain, explain_sheet};
use oim_report::Sheet;
use std::alloc::AllocError;
use std::test::Fail;
use test_helpers::asked_again::{OPEN_INFO, joined, may_repeat, read_sheet};

// Tests the sentences about faults. If memory is refused, a call is repeated once.

const SHEET: &str =
    r#"{"namespaces":{"eg":"http://example.org/t"},"concepts":{"eg:A":"numeric","eg:T":"text","eg:Q":"name"},"dimensions":{"eg:Reg":"explicit","eg:Sku":"typed"}}"#;

// The beginning of a report, up to its facts. The report allows consistent duplicates.
const START: &str =
    r#"{"documentInfo":{"documentType":"https://xbrl.org/2021/xbrl-json","namespaces":{"eg":"http://example.org/t","x":"http://example.org/u","zz":"http://example.org/t","xbrl":"https://xbrl.org/2021"},"features":{"xbrl:allowedDuplicates":"consistent"}},"facts":{"#;

// A sheet and a report whose namespaces differ only after 80 characters.
const LONG_SHEET: &str =
    r#"{"namespaces":{"eg":"http://filer.example/0123456789012345678901234567890123456789012345678901234567890123456789/2023"},"concepts":{"eg:A":"numeric"}}"#;

const LONG_REPORT: &[u8] =
    br#"{"documentInfo":{"documentType":"https://xbrl.org/2021/xbrl-json","namespaces":{"eg":"http://filer.example/0123456789012345678901234567890123456789012345678901234567890123456789/2024"}},"facts":{"a":{"value":"1","dimensions":{"concept":"eg:A"}}}}"#;

const LONG_TOLD: &str =
    "r: fact \"a\": 16 UnknownConcept: the concept \"eg:A\" is not in the sheet; in the report it is {..mple/0123456789012345678901234567890123456789012345678901234567890123456789/2024}A, the sheet has {..mple/0123456789012345678901234567890123456789012345678901234567890123456789/2023}A\n";

struct Table<'t> {
    start: &'t str,
    rows: &'t [(&'t str, &'t str)],
    end: &'t str,
}

const TEN: &str =
    r#""f01":{"value":"1","note":"restated","dimensions":{"concept":"eg:A"}},"f02":{"value":"1","dimensions":{"concept":"eg:A","entity":"lei:5299"}},"f03":{"value":"1","dimensions":{"period":"2024-01-01T00:00:00"}},"f04":{"value":"1","dimensions":{"concept":"eg:Sales"}},"f05":{"value":"1","dimensions":{"concept":"eg:A","eg:Axis":"eg:B"}},"f06":{"value":"1","dimensions":{"concept":"eg:A","period":"2024-12-31"}},"f07":{"value":"1","dimensions":{"concept":"eg:A","unit":"EUR"}},"f08":{"value":12,"dimensions":{"concept":"eg:A"}},"f09":{"value":"1,000","dimensions":{"concept":"eg:A"}},"f10":{"value":"1","decimals":20,"dimensions":{"concept":"eg:A"}}"#;

const TOLD: &str = "r: fact \"f01\": 3 UnknownMember: the format has no member \"note\"
r: fact \"f02\": 13 UnboundPrefix: the prefix of \"lei:5299\" is not bound
r: fact \"f03\": 15 MissingConcept: the fact has no \"concept\" in \"dimensions\"
r: fact \"f04\": 16 UnknownConcept: the concept \"eg:Sales\" is not in the sheet
r: fact \"f05\": 17 UnknownDimension: the dimension \"eg:Axis\" is not in the sheet
r: fact \"f06\": 19 PeriodForm: the period \"2024-12-31\" is neither a date and time such as 2024-12-31T00:00:00, without zone or fraction, nor two of these with / between them
r: fact \"f07\": 12 NameForm: \"EUR\" is not a name such as prefix:local, without white space or a second colon
r: fact \"f08\": 25 ValueForm: the value 12 is neither a string nor null; numbers need quotes
r: fact \"f09\": 26 NumberForm: the value \"1,000\" is not a plain number such as -1234.5, without exponent, thousands separator or white space; in the sheet, the concept is numeric
r: fact \"f10\": 29 DecimalsRange: the decimals value 20 is not from -18 to 18
";

const TABLES: [Table<'static>; 3] = [
    // refusals 1 to 8, and hints at the kind of a file
    Table {
        start: "",
        rows: &[
            (
                "{\"documentInfo\":\n}",
                "r: 1 NotJson: the file cannot be read as JSON: invalid JSON at line 2 column 1\n",
            ),
            (
                "<?xml version=\"1.0\"?>",
                "r: 1 NotJson: the file cannot be read as JSON: invalid JSON at line 1 column 1; the file looks like XML: convert it to xBRL-JSON with another program\n",
            ),
            (
                "<html xmlns:ix=\"http://www.xbrl.org/2013/inlineXBRL\">",
                "r: 1 NotJson: the file cannot be read as JSON: invalid JSON at line 1 column 1; the file looks like Inline XBRL: convert it to xBRL-JSON with another program\n",
            ),
            (
                "concept,value\na,1\n",
                "r: 1 NotJson: the file cannot be read as JSON: invalid JSON at line 1 column 1; the file looks like CSV: convert it to xBRL-JSON with another program\n",
            ),
            (
                "\"concept\";\"value\"\n",
                "r: 1 NotJson: the file cannot be read as JSON: invalid JSON at line 1 column 10; the file looks like CSV: convert it to xBRL-JSON with another program\n",
            ),
            // prose, parts of JSON and JSON after a comment are not taken for CSV
            (
                "//a,b\n{}",
                "r: 1 NotJson: the file cannot be read as JSON: invalid JSON at line 1 column 1\n",
            ),
            (
                "Dear reader, here is the report\n",
                "r: 1 NotJson: the file cannot be read as JSON: invalid JSON at line 1 column 1\n",
            ),
            (
                "\"facts\":{},\"a\":1",
                "r: 1 NotJson: the file cannot be read as JSON: invalid JSON at line 1 column 9\n",
            ),
            (
                "\u{feff}\u{feff}<a>",
                "r: 1 NotJson: the file cannot be read as JSON: invalid JSON at line 1 column 1; the file looks like XML: convert it to xBRL-JSON with another program\n",
            ),
            (
                "{\0\"\0",
                "r: 1 NotJson: the file cannot be read as JSON: invalid JSON at line 1 column 2; the file looks like text in UTF-16: convert it to UTF-8\n",
            ),
            (
                "[[[[[[[[[[[[[[[[[[[[[[[[[[[[[[[[[[[[[[[[[[[[[[[[[[[[[[[[[[[[[[[[[[[[[[[[[[[[[[[[[[[[[[[[[[[[[[[[[[[[[[[[[[[[[[[[[[[[[[[[[[[[[[[[",
                "r: 1 NotJson: the file cannot be read as JSON: more than 127 levels of objects and arrays at line 1 column 128\n",
            ),
            // repeated members of a refused report are not shown if `serde_json` cannot read the
            // file
            (
                r#"{"documentInfo":{},"facts":{"a":1,"a":2},"x:y":1e999}"#,
                "r: 1 NotJson: the file cannot be read as JSON: number out of range at line 1 column 53\n",
            ),
            (
                "[]",
                "r: 2 MemberForm: the file is not an object with \"documentInfo\" and \"facts\"\n",
            ),
            (
                SHEET,
                "r: 2 MemberForm: \"documentInfo\" is missing; the file looks like a sheet, not a report\nr: 3 UnknownMember: the format has no member \"concepts\"\n",
            ),
            (
                r#"{"documentInfo":{"documentType":"https://xbrl.org/2021/xbrl-csv"},"tables":{}}"#,
                "r: 3 UnknownMember: the format has no member \"tables\"; the file looks like the metadata of an xBRL-CSV report: convert it to xBRL-JSON with another program\nr: 4 DocumentType: the document type is \"https://xbrl.org/2021/xbrl-csv\", but must be \"https://xbrl.org/2021/xbrl-json\"\n",
            ),
            (
                r#"{"documentInfo":{}}"#,
                "r: 4 DocumentType: \"documentType\" is missing; it must be \"https://xbrl.org/2021/xbrl-json\"\n",
            ),
        ],
        end: "",
    },
    Table {
        start: OPEN_INFO,
        rows: &[
            (
                r#"},"facts":[]}"#,
                "r: 2 MemberForm: \"facts\" is not an object\n",
            ),
            (
                r#","colour":1}}"#,
                "r: 3 UnknownMember: the format has no member \"colour\" in \"documentInfo\"\n",
            ),
            (
                r#","namespaces":{"eg":""},"baseURL":"x","taxonomy":[2023]}}"#,
                "r: 5 Namespace: the entry \"eg\": \"\" of \"namespaces\" is not a prefix and a URI: neither may be empty, and a prefix has no colon or white space\nr: 6 BaseUrl: the \"baseURL\" \"x\" is not an http or https URL of at most 65,536 bytes\nr: 7 TaxonomyUrl: the reference 2023 of \"taxonomy\" is not a string, is longer than 65,536 bytes as written or as a URL, or is not an http or https URL when resolved against \"baseURL\"\n",
            ),
            (
                r#","namespaces":{"xbrl":"https://xbrl.org/2021"},"features":{"xbrl:allowedDuplicates":"some"}}}"#,
                "r: 8 Feature: \"features\" must have \"allowedDuplicates\" once, with \"none\", \"complete\", \"consistent\" or \"all\"; it has \"xbrl:allowedDuplicates\": \"some\"\n",
            ),
            // the refused reference is shown; if two levels are declared, both are shown
            (
                r#","baseURL":"http://example.org/","taxonomy":["a.xsd","mailto:x","//["]}}"#,
                "r: 7 TaxonomyUrl: the reference \"//[\" of \"taxonomy\" is not a string, is longer than 65,536 bytes as written or as a URL, or is not an http or https URL when resolved against \"baseURL\"\n",
            ),
            (
                r#","taxonomy":["http://example.org/a-long-way-to-a-schema-that-is-found-without-any-trouble-at-all.xsd","",["b"]]}}"#,
                "r: 7 TaxonomyUrl: the reference [\"b\"] of \"taxonomy\" is not a string, is longer than 65,536 bytes as written or as a URL, or is not an http or https URL when resolved against \"baseURL\"\n",
            ),
            // the text of a floating-point number is not kept
            (
                r#","taxonomy":[1e2]},"namespaces":{}}"#,
                "r: 3 UnknownMember: \"namespaces\" is in the wrong place: it belongs in \"documentInfo\"\nr: 7 TaxonomyUrl: the reference (a number) of \"taxonomy\" is not a string, is longer than 65,536 bytes as written or as a URL, or is not an http or https URL when resolved against \"baseURL\"\n",
            ),
            (
                r#","namespaces":{"a":"https://xbrl.org/2021","b":"https://xbrl.org/2021"},"features":{"a:allowedDuplicates":"all","b:allowedDuplicates":"none"}}}"#,
                "r: 8 Feature: \"features\" must have \"allowedDuplicates\" once, with \"none\", \"complete\", \"consistent\" or \"all\"; it has {\"a:allowedDuplicates\":\"all\",\"b:allowedDuplicates\":\"none\"}\n",
            ),
            // a repeated member is shown with its place
            (
                r#","namespaces":{"eg":"http://a","eg":"http://b"}},"facts":{},"facts":{}}"#,
                "r: \"facts\" is repeated in the report; only the last one is read\nr: \"eg\" is repeated in \"namespaces\"; only the last one is read\n",
            ),
        ],
        end: "",
    },
    // refusals 2, 3 and 9 to 31
    Table {
        start: START,
        rows: &[
            ("", ""),
            (
                r#""a":{"decimals":20,"links":{"y":1}}"#,
                "r: fact \"a\": 2 MemberForm: \"value\" is missing\nr: fact \"a\": 9 Links: the links {\"y\":1} cannot be merged\nr: fact \"a\": 11 DimensionsMissing: the fact has no \"dimensions\"\nr: fact \"a\": 29 DecimalsRange: the decimals value 20 is not from -18 to 18\n",
            ),
            (
                r#""a":{"value":"1","colour":1,"dimensions":{"noteId":"n"}}"#,
                "r: fact \"a\": 3 UnknownMember: the format has no member \"colour\"\nr: fact \"a\": 10 Notes: the note \"n\" cannot be merged\nr: fact \"a\": 15 MissingConcept: the fact has no \"concept\" in \"dimensions\"\n",
            ),
            (
                r#""a":{"value":"1","dimensions":{"concept":"ifrs:Revenue","entity":"e","eg:Reg":"xbrl:a"}}"#,
                "r: fact \"a\": 12 NameForm: \"e\" is not an entity such as prefix:identifier\nr: fact \"a\": 13 UnboundPrefix: the prefix of \"ifrs:Revenue\" is not bound\nr: fact \"a\": 14 ReservedNamespace: the prefix of \"xbrl:a\" is bound to https://xbrl.org/2021, which is reserved\n",
            ),
            (
                r#""a":{"value":"q:b","dimensions":{"concept":"eg:Q"}},"b":{"value":"1","dimensions":{"concept":"eg:A","unit":"x:a/q:b"}}"#,
                "r: fact \"a\": 13 UnboundPrefix: the prefix of \"q:b\" is not bound\nr: fact \"b\": 13 UnboundPrefix: the prefix of \"q:b\" is not bound\n",
            ),
            (
                r#""a":{"value":"1","dimensions":{"concept":"eg:Z","eg:Hue":"red","eg:Reg":null}}"#,
                "r: fact \"a\": 16 UnknownConcept: the concept \"eg:Z\" is not in the sheet\nr: fact \"a\": 17 UnknownDimension: the dimension \"eg:Hue\" is not in the sheet\nr: fact \"a\": 18 DimensionValue: the dimension \"eg:Reg\": null does not fit the sheet: an explicit dimension takes a name such as prefix:local, a typed dimension a string or null\n",
            ),
            // a similar name in the sheet is shown
            (
                r#""a":{"value":"1","dimensions":{"concept":"x:A","x:Sku":"b"}}"#,
                "r: fact \"a\": 16 UnknownConcept: the concept \"x:A\" is not in the sheet; in the report it is {http://example.org/u}A, the sheet has {http://example.org/t}A\nr: fact \"a\": 17 UnknownDimension: the dimension \"x:Sku\" is not in the sheet; in the report it is {http://example.org/u}Sku, the sheet has {http://example.org/t}Sku\n",
            ),
            // a member in the wrong object, and a unit of null
            (
                r#""a":{"value":"1","concept":"eg:A","dimensions":{"concept":"eg:T","unit":null}}"#,
                "r: fact \"a\": 2 MemberForm: \"unit\" is not a string\nr: fact \"a\": 3 UnknownMember: \"concept\" is in the wrong place: it belongs in the \"dimensions\" of a fact\nr: fact \"a\": 22 UnitOnOther: a \"unit\", even null, is only for concepts that are numeric in the sheet\n",
            ),
            // of a repeated fact, only the last is searched for repeated members
            (
                r#""a":{"value":"1","value":"2","dimensions":{"concept":"eg:A"}},"a":{"value":"1","dimensions":{"concept":"eg:A"}}"#,
                "r: fact \"a\" is repeated; only the last one is read\n",
            ),
            (
                r#""a":{"value":"1","dimensions":{"concept":"eg:A","eg:Sku":"b","zz:Sku":"b"}}"#,
                "r: fact \"a\": 18 DimensionValue: the keys \"eg:Sku\" and \"zz:Sku\" name the same dimension\n",
            ),
            // in `value` and `decimals`, a number is shown as the file spells it, or not at all
            (
                r#""a":{"value":"1","decimals":1e23,"dimensions":{"concept":"eg:A","scenario":"s"}}"#,
                "r: fact \"a\": 3 UnknownMember: the format has no member \"scenario\" in \"dimensions\"\nr: fact \"a\": 28 DecimalsForm: \"decimals\" must be an integer from -18 to 18, without quotes, fraction or exponent, and zero without a sign\n",
            ),
            (
                r#""a":{"value":1,"decimals":"0","dimensions":{"concept":"eg:T","period":"2020","unit":"x:a/","language":"e n"}}"#,
                "r: fact \"a\": 19 PeriodForm: the period \"2020\" is neither a date and time such as 2024-12-31T00:00:00, without zone or fraction, nor two of these with / between them\nr: fact \"a\": 21 UnitForm: the unit \"x:a/\" is not a unit such as a:b, a:b*a:c or a:b/a:c\nr: fact \"a\": 22 UnitOnOther: the unit \"x:a/\" is only for concepts that are numeric in the sheet\nr: fact \"a\": 23 LanguageForm: the language \"e n\" is not a language such as en or de-AT\nr: fact \"a\": 25 ValueForm: the value 1 is neither a string nor null; numbers need quotes\nr: fact \"a\": 28 DecimalsForm: the decimals value \"0\" is not an integer without quotes\nr: fact \"a\": 30 DecimalsOnOther: the decimals value \"0\" is only for concepts that are numeric in the sheet\n",
            ),
            (
                r#""a":{"value":"x","decimals":19,"dimensions":{"concept":"eg:A","language":"en","period":"2020-01-02T00:00:00/2020-01-01T00:00:00"}}"#,
                "r: fact \"a\": 20 PeriodOrder: the period \"2020-01-02T00:00:00/2020-01-01T00:00:00\" ends before it starts\nr: fact \"a\": 24 LanguageOnNumeric: the language \"en\" is not for concepts that are numeric in the sheet\nr: fact \"a\": 26 NumberForm: the value \"x\" is not a plain number such as -1234.5, without exponent, thousands separator or white space; in the sheet, the concept is numeric\nr: fact \"a\": 29 DecimalsRange: the decimals value 19 is not from -18 to 18\n",
            ),
            (
                r#""a":{"value":"1234567890123456789","dimensions":{"concept":"eg:A"}}"#,
                "r: fact \"a\": 27 NumberDigits: the value \"1234567890123456789\" has more than 18 digits\n",
            ),
            (
                r#""p":{"value":"1","decimals":0,"dimensions":{"concept":"eg:A"}},"q":{"value":"1.2","decimals":1,"dimensions":{"concept":"eg:A"}},"r":{"value":"3","dimensions":{"concept":"eg:A"}}"#,
                "r: 31 DisallowedDuplicates: the facts \"p\" and \"r\" have the same dimensions, and the report's own \"allowedDuplicates\" does not allow both\n",
            ),
            // ten different faults
            (TEN, TOLD),
            // repeated members are shown, and control characters are escaped
            (
                r#""a":{"value":"1","value":"2","dimensions":{"concept":"eg:A"}},"\u001b[2J":7,"a":{"value":"1","dimensions":{"concept":"eg:A","concept":"eg:A"}}"#,
                "r: fact \"\\u001b[2J\": 2 MemberForm: the fact is not an object\nr: fact \"a\" is repeated; only the last one is read\nr: fact \"a\": \"concept\" is repeated in \"dimensions\"; only the last one is read\n",
            ),
            // invisible characters, and characters that change the direction of text, are escaped
            (
                "\"a\\u061c\u{200b}\u{feff}\u{85}\u{202e}\u{ad}\u{e0001}\":7",
                "r: fact \"a\\u061c\\u200b\\ufeff\\u0085\\u202e\\u00ad\\udb40\\udc01\": 2 MemberForm: the fact is not an object\n",
            ),
            // a text and an identifier are cut after 80 characters
            (
                r#""yyyyyyyyyyyyyyyyyyyyyyyyyyyyyyyyyyyyyyyyyyyyyyyyyyyyyyyyyyyyyyyyyyyyyyyyyyyyyyyb":{"value":"ä\n9xxxxxxxxxxxxxxxxxxxxxxxxxxxxxxxxxxxxxxxxxxxxxxxxxxxxxxxxxxxxxxxxxxxxxxxxxxxxx","dimensions":{"concept":"eg:A"}},"yyyyyyyyyyyyyyyyyyyyyyyyyyyyyyyyyyyyyyyyyyyyyyyyyyyyyyyyyyyyyyyyyyyyyyyyyyyyyyyyc":{"value":"ä\n9xxxxxxxxxxxxxxxxxxxxxxxxxxxxxxxxxxxxxxxxxxxxxxxxxxxxxxxxxxxxxxxxxxxxxxxxxxxxx+","dimensions":{"concept":"eg:A"}}"#,
                "r: fact \"yyyyyyyyyyyyyyyyyyyyyyyyyyyyyyyyyyyyyyyyyyyyyyyyyyyyyyyyyyyyyyyyyyyyyyyyyyyyyyyb\": 26 NumberForm: the value \"ä\\n9xxxxxxxxxxxxxxxxxxxxxxxxxxxxxxxxxxxxxxxxxxxxxxxxxxxxxxxxxxxxxxxxxxxxxxxxxxxxx\" is not a plain number such as -1234.5, without exponent, thousands separator or white space; in the sheet, the concept is numeric\nr: fact \"yyyyyyyyyyyyyyyyyyyyyyyyyyyyyyyyyyyyyyyyyyyyyyyyyyyyyyyyyyyyyyyyyyyyyyyyyyyyyyyy..: 26 NumberForm: the value \"ä\\n9xxxxxxxxxxxxxxxxxxxxxxxxxxxxxxxxxxxxxxxxxxxxxxxxxxxxxxxxxxxxxxxxxxxxxxxxxxxxx.. is not a plain number such as -1234.5, without exponent, thousands separator or white space; in the sheet, the concept is numeric\n",
            ),
        ],
        end: "}}",
    },
];

// Files in other encodings, a compressed file and an archive, each with the line about it.
const BYTES: [(&[u8], &str); 5] = [
    (
        b"\xff\xfe{\0",
        "r: 1 NotJson: the file cannot be read as JSON: invalid JSON at line 1 column 1; the file looks like text in UTF-16: convert it to UTF-8\n",
    ),
    (
        b"\x1f\x8b\x08\0",
        "r: 1 NotJson: the file cannot be read as JSON: invalid JSON at line 1 column 2; the file looks like a gzip file: unpack it first\n",
    ),
    (
        b"PK\x03\x04",
        "r: 1 NotJson: the file cannot be read as JSON: invalid JSON at line 1 column 1; the file looks like a ZIP file, as a report package is: unpack it first\n",
    ),
    (
        b"<?xml version=\"1.0\" encoding=\"ISO-8859-1\"?><a>\xe4</a>",
        "r: 1 NotJson: the file cannot be read as JSON: invalid JSON at line 1 column 47; the file looks like XML: convert it to xBRL-JSON with another program\n",
    ),
    (
        b"concept,value\nUms\xe4tze,1\n",
        "r: 1 NotJson: the file cannot be read as JSON: invalid JSON at line 2 column 4; the file looks like CSV: convert it to xBRL-JSON with another program\n",
    ),
];

const SHEETS: [(&str, &str); 9] = [
    (
        "<s xmlns='http://www.w3.org/2001/XMLSchema'/>",
        "s: the file cannot be read as JSON: invalid JSON at line 1 column 1; the file looks like a schema of a taxonomy: run `tools/make_sheet FILE >sheet.json`\n",
    ),
    (
        r#"{"documentInfo":{}}"#,
        "s: the format has no member \"documentInfo\" in a sheet; the file looks like a report, not a sheet\n",
    ),
    (
        "<xbrl xmlns:xsi='http://www.w3.org/2001/XMLSchema-instance'/>",
        "s: the file cannot be read as JSON: invalid JSON at line 1 column 1; the file looks like XML: convert it to xBRL-JSON with another program\n",
    ),
    (
        "<xml>",
        "s: the file cannot be read as JSON: invalid JSON at line 1 column 1; the file looks like XML: convert it to xBRL-JSON with another program\n",
    ),
    (r#"{"concepts":[]}"#, "s: \"concepts\" is not an object\n"),
    (
        r#"{"namespaces":{"e g":"u"}}"#,
        "s: the entry \"e g\": \"u\" of \"namespaces\" is not a prefix and a URI: neither may be empty, and a prefix has no colon or white space\n",
    ),
    (
        r#"{"namespaces":{"eg":"u"},"concepts":{"eg:A":"text"},"dimensions":{"q:D":"typed"}}"#,
        "s: the prefix of \"q:D\" is not bound\n",
    ),
    (
        r#"{"namespaces":{"eg":"u"},"concepts":{"eg:A":"text"},"dimensions":{"eg:D":"text"}}"#,
        "s: the entry \"eg:D\": \"text\" of the sheet has an unknown kind: a concept is \"numeric\", \"text\" or \"name\", a dimension \"explicit\" or \"typed\"\n",
    ),
    (
        r#"{"namespaces":{"eg":"u","zz":"u"},"concepts":{"eg:A":"text","zz:A":"numeric"}}"#,
        "s: the entries \"eg:A\" and \"zz:A\" give one name two kinds\n",
    ),
];

// Names of files, each with the lines about a report and about a sheet.
const NAMES: [(&str, &str, &str); 4] = [
    (
        "l\n",
        "l\\u000a: 1 NotJson: the file cannot be read as JSON: invalid JSON at line 1 column 1\n",
        "l\\u000a: \"concepts\" is not an object\n",
    ),
    (
        "l\\u000a",
        "l\\\\u0075000a: 1 NotJson: the file cannot be read as JSON: invalid JSON at line 1 column 1\n",
        "l\\\\u0075000a: \"concepts\" is not an object\n",
    ),
    (
        "\\\\u\u{feff}",
        "\\\\\\u0075\\ufeff: 1 NotJson: the file cannot be read as JSON: invalid JSON at line 1 column 1\n",
        "\\\\\\u0075\\ufeff: \"concepts\" is not an object\n",
    ),
    (
        "C:\\l",
        "C:\\l: 1 NotJson: the file cannot be read as JSON: invalid JSON at line 1 column 1\n",
        "C:\\l: \"concepts\" is not an object\n",
    ),
];

fn read_names<'s>(
    rt: &HostRuntime,
    sheet: &'s Sheet,
    text: &str,
) -> Result<SheetNames<'s>, AllocError> {
    match SheetNames::read(rt.alloc(), sheet, text.as_bytes()) {
        Err(_) if may_repeat(rt) => SheetNames::read(rt.alloc(), sheet, text.as_bytes()),
        read => read,
    }
}

fn is_said_once(
    rt: &HostRuntime,
    names: &SheetNames<'_>,
    name: &str,
    bytes: &[u8],
    lines: &str,
) -> Result<bool, AllocError> {
    let input = Input {
        report: Some(1),
        name,
        format: Format::Text,
    };
    let said = explain(rt.alloc(), names, input, bytes)?;
    let faults = lines.split('\n').count() - 1;
    Ok(are_lines(rt, said.text.as_str(), lines) && said.faults == faults as u64)
}

/// Returns whether the text is as expected, and prints it if it is not.
fn are_lines(rt: &HostRuntime, found: &str, lines: &str) -> bool {
    if found != lines {
        let _ = eprintln!(rt; "{found}");
    }
    found == lines
}

fn is_said(
    rt: &HostRuntime,
    names: &SheetNames<'_>,
    name: &str,
    bytes: &[u8],
    lines: &str,
) -> Result<bool, AllocError> {
    match is_said_once(rt, names, name, bytes, lines) {
        Err(_) if may_repeat(rt) => is_said_once(rt, names, name, bytes, lines),
        said => said,
    }
}

fn is_row_said(
    rt: &HostRuntime,
    names: &SheetNames<'_>,
    table: &Table<'_>,
    row: &(&str, &str),
) -> Result<bool, AllocError> {
    let report = joined(rt, &[table.start, row.0, table.end])?;
    is_said(rt, names, "r", report.as_slice(), row.1)
}

fn is_table_said(
    rt: &HostRuntime,
    names: &SheetNames<'_>,
    table: &Table<'_>,
) -> Result<bool, AllocError> {
    let mut all = true;
    for row in table.rows {
        all = is_row_said(rt, names, table, row)? && all;
    }
    Ok(all)
}

fn is_said_of_sheet_once(
    rt: &HostRuntime,
    name: &str,
    text: &str,
    line: &str,
) -> Result<bool, AllocError> {
    let said = explain_sheet(rt.alloc(), name, text.as_bytes())?;
    if said.as_str() != line {
        let found = said.as_str();
        let _ = eprintln!(rt; "{found}");
    }
    Ok(said.as_str() == line)
}

fn is_said_of_sheet(
    rt: &HostRuntime,
    name: &str,
    text: &str,
    line: &str,
) -> Result<bool, AllocError> {
    match is_said_of_sheet_once(rt, name, text, line) {
        Err(_) if may_repeat(rt) => is_said_of_sheet_once(rt, name, text, line),
        said => said,
    }
}

#[test]
fn faults_of_documents_are_said(rt: HostRuntime) -> Result<(), Fail> {
    let sheet = read_sheet(&rt, SHEET)?;
    let names = read_names(&rt, &sheet, SHEET)?;
    for table in &TABLES[..2] {
        assert!(rt; is_table_said(&rt, &names, table)?);
    }
    Ok(())
}

#[test]
fn faults_of_facts_are_said(rt: HostRuntime) -> Result<(), Fail> {
    let sheet = read_sheet(&rt, SHEET)?;
    let names = read_names(&rt, &sheet, SHEET)?;
    assert!(rt; is_table_said(&rt, &names, &TABLES[2])?);
    Ok(())
}

#[test]
fn faults_of_reports_in_other_formats_are_said(rt: HostRuntime) -> Result<(), Fail> {
    let sheet = read_sheet(&rt, SHEET)?;
    let names = read_names(&rt, &sheet, SHEET)?;
    for (bytes, line) in &BYTES {
        assert!(rt; is_said(&rt, &names, "r", bytes, line)?);
    }
    Ok(())
}

#[test]
fn long_namespaces_are_shown_where_they_differ(rt: HostRuntime) -> Result<(), Fail> {
    let sheet = read_sheet(&rt, LONG_SHEET)?;
    let names = read_names(&rt, &sheet, LONG_SHEET)?;
    assert!(rt; is_said(&rt, &names, "r", LONG_REPORT, LONG_TOLD)?);
    Ok(())
}

#[test]
fn refused_sheets_are_told_apart(rt: HostRuntime) -> Result<(), Fail> {
    for (text, line) in &SHEETS {
        assert!(rt; is_said_of_sheet(&rt, "s", text, line)?);
    }
    Ok(())
}

#[test]
fn names_of_files_look_different(rt: HostRuntime) -> Result<(), Fail> {
    let sheet = read_sheet(&rt, SHEET)?;
    let names = read_names(&rt, &sheet, SHEET)?;
    for (name, of_report, of_sheet) in &NAMES {
        assert!(rt; is_said(&rt, &names, name, b"/", of_report)?);
        assert!(rt; is_said_of_sheet(&rt, name, "{\"concepts\":[]}", of_sheet)?);
    }
    Ok(())
}
