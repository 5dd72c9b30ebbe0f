use super::{
    BOUND, Declares, END, FACT, HasLevel, INFO, Keeps, NO_FACTS, SHEET, Sorts, Table, features,
    hold, holds_under_sheet, read_sheet, references, row_holds,
};
use oim_report::Sheet;
use oim_value::Level;
use oim_value::Level::{All, Complete, Consistent, Unique};

/// Reports, with the number of their facts and the level of these. The reports declare `all` or no
/// level.
const LEVELS: Table<(usize, Level)> = Table {
    start: INFO,
    rows: &[
        // equal facts in one report are complete duplicates
        ((0, Unique), &[""]),
        (
            (2, Unique),
            &[
                r#""a":{"value":"1","dimensions":{"concept":"eg:B"}},"b":{"value":"1","dimensions":{"concept":"eg:A"}}"#,
            ],
        ),
        (
            (3, Complete),
            &[
                r#""a":{"value":null,"dimensions":{"concept":"eg:A"}},"b":{"value":"2","dimensions":{"concept":"eg:B"}},"c":{"value":null,"dimensions":{"concept":"eg:A"}}"#,
                r#""a":{"value":"x","dimensions":{"concept":"eg:T"}},"b":{"value":"2","dimensions":{"concept":"eg:B"}},"c":{"value":"x","dimensions":{"concept":"eg:T"}}"#,
                r#""a":{"value":"eg:N","dimensions":{"concept":"eg:Q"}},"b":{"value":"2","dimensions":{"concept":"eg:B"}},"c":{"value":"eg:N","dimensions":{"concept":"eg:Q"}}"#,
            ],
        ),
        (
            (2, Complete),
            &[
                r#""a":{"value":"1","decimals":0,"dimensions":{"concept":"eg:A"}},"b":{"value":"1","decimals":0,"dimensions":{"concept":"eg:A"}}"#,
            ],
        ),
        (
            (4, Complete),
            &[
                r#""a":{"value":"-0","dimensions":{"concept":"eg:A"}},"b":{"value":"+0.00","dimensions":{"concept":"eg:A"}},"c":{"value":".0","dimensions":{"concept":"eg:A"}},"d":{"value":"0","dimensions":{"concept":"eg:A"}}"#,
            ],
        ),
        // equal facts may be spelled differently
        (
            (3, Complete),
            &[
                r#""a":{"value":"1","dimensions":{"concept":"eg:A","unit":"x:b*x:a"}},"b":{"value":"1","dimensions":{"concept":"eg:A","unit":"(x:a*x:b)"}},"c":{"value":"1","dimensions":{"concept":"eg:A","unit":"x:a*x:b"}}"#,
            ],
        ),
        (
            (2, Complete),
            &[
                r#""a":{"value":"1","dimensions":{"concept":"eg:A","unit":"xbrli:pure"}},"b":{"value":"1","dimensions":{"concept":"eg:A"}}"#,
                r#""a":{"value":"1","dimensions":{"concept":"eg:A","period":"2020-12-31T24:00:00"}},"b":{"value":"1","dimensions":{"concept":"eg:A","period":"2021-01-01T00:00:00/2021-01-01T00:00:00"}}"#,
                r#""a":{"value":"1","dimensions":{"concept":"eg:T","language":"EN-gb"}},"b":{"value":"1","dimensions":{"concept":"eg:T","language":"en-GB"}}"#,
            ],
        ),
        // facts that differ in one dimension are not duplicates
        (
            (2, Unique),
            &[
                r#""a":{"value":"1","dimensions":{"concept":"eg:A","unit":"x:a/x:b"}},"b":{"value":"1","dimensions":{"concept":"eg:A","unit":"x:b/x:a"}}"#,
                r#""a":{"value":"1","dimensions":{"concept":"eg:A","entity":"x:A"}},"b":{"value":"1","dimensions":{"concept":"eg:A","entity":"x:a"}}"#,
            ],
        ),
        (
            (3, Unique),
            &[
                r#""a":{"value":"1","dimensions":{"concept":"eg:A","eg:Sku":null}},"b":{"value":"1","dimensions":{"concept":"eg:A","eg:Sku":""}},"c":{"value":"1","dimensions":{"concept":"eg:A"}}"#,
            ],
        ),
        // every two numbers must meet, not only neighbours
        (
            (2, Consistent),
            &[
                r#""a":{"value":"100","decimals":0,"dimensions":{"concept":"eg:A"}},"b":{"value":"101","decimals":0,"dimensions":{"concept":"eg:A"}}"#,
            ],
        ),
        (
            (2, Consistent),
            &[
                r#""a":{"value":"1","decimals":0,"dimensions":{"concept":"eg:A"}},"b":{"value":"1","dimensions":{"concept":"eg:A"}}"#,
                r#""a":{"value":"1.5","dimensions":{"concept":"eg:A"}},"b":{"value":"1","decimals":0,"dimensions":{"concept":"eg:A"}}"#,
            ],
        ),
        // numbers that meet, one of them twice
        (
            (3, Consistent),
            &[
                r#""a":{"value":"100","decimals":0,"dimensions":{"concept":"eg:A"}},"b":{"value":"101","decimals":0,"dimensions":{"concept":"eg:A"}},"c":{"value":"100","decimals":0,"dimensions":{"concept":"eg:A"}}"#,
            ],
        ),
        (
            (3, All),
            &[
                r#""a":{"value":"101","decimals":0,"dimensions":{"concept":"eg:A"}},"b":{"value":"102","decimals":0,"dimensions":{"concept":"eg:A"}},"c":{"value":"100","decimals":0,"dimensions":{"concept":"eg:A"}}"#,
                r#""a":{"value":null,"dimensions":{"concept":"eg:B"}},"b":{"value":"x","dimensions":{"concept":"eg:T"}},"c":{"value":"y","dimensions":{"concept":"eg:T"}}"#,
                r#""a":{"value":null,"dimensions":{"concept":"eg:B"}},"b":{"value":"x","dimensions":{"concept":"eg:T"}},"c":{"value":null,"dimensions":{"concept":"eg:T"}}"#,
                r#""a":{"value":null,"dimensions":{"concept":"eg:B"}},"b":{"value":"eg:N","dimensions":{"concept":"eg:Q"}},"c":{"value":"eg:M","dimensions":{"concept":"eg:Q"}}"#,
            ],
        ),
        (
            (3, All),
            &[
                r#""a":{"value":"100","decimals":0,"dimensions":{"concept":"eg:A"}},"b":{"value":"101","decimals":0,"dimensions":{"concept":"eg:A"}},"c":{"value":"102","decimals":0,"dimensions":{"concept":"eg:A"}}"#,
            ],
        ),
        (
            (2, All),
            &[
                r#""a":{"value":null,"dimensions":{"concept":"eg:A"}},"b":{"value":"5","dimensions":{"concept":"eg:A"}}"#,
            ],
        ),
        // a repeated text is read as it was the first time
        (
            (2, Complete),
            &[
                r#""a":{"value":"1","dimensions":{"concept":"eg:A","entity":"x:1","period":"2020-01-01T00:00:00","unit":"x:a/x:b","eg:Reg":"eg:North"}},"b":{"value":"1","dimensions":{"concept":"eg:A","entity":"x:1","period":"2020-01-01T00:00:00","unit":"x:a/x:b","eg:Reg":"eg:North"}}"#,
                r#""a":{"value":"x","dimensions":{"concept":"eg:T","language":"en","eg:Sku":"eg:North"}},"b":{"value":"x","dimensions":{"concept":"eg:T","language":"en","eg:Sku":"eg:North"}}"#,
            ],
        ),
    ],
    end: END,
};

/// Names are compared by URI, not by prefix.
const RENAMED: Table<(usize, Level)> = Table {
    start: FACT,
    rows: &[(
        (2, Complete),
        &[
            r#"{"value":"1","dimensions":{"concept":"eg:A","zz:Reg":"eg:North"}},"b":{"value":"1","dimensions":{"concept":"zz:A","eg:Reg":"zz:North"}}"#,
        ],
    )],
    end: END,
};

/// The declared level may be looser than the level of the facts.
const DECLARED: Table<Level> = Table {
    start: r#"{"documentInfo":{"documentType":"https://xbrl.org/2021/xbrl-json","namespaces":{"y":"https://xbrl.org/2021"},"features":{"y:allowedDuplicates":""#,
    rows: &[
        (Unique, &["none"]),
        (Complete, &["complete"]),
        (Consistent, &["consistent"]),
        (All, &["all"]),
    ],
    end: r#""}},"facts":{}}"#,
};

/// References are kept in their order.
const KEPT: Table<&[&str]> = Table {
    start: BOUND,
    rows: &[
        (&[], &[""]),
        (&["a.xsd"], &[r#","taxonomy":["a.xsd"]"#]),
        (
            &[
                "http://x.org/d/b.xsd",
                "http://x.org/d/a.xsd",
                "http://x.org/d/b.xsd",
            ],
            &[r#","baseURL":"http://x.org/d/r.json","taxonomy":["b.xsd","a.xsd","b.xsd"]"#],
        ),
        (
            &["http://x.org/b.xsd", "urn:x:Y"],
            &[r#","taxonomy":["HTTP://X.org/b.xsd","urn:x:Y"]"#],
        ),
    ],
    end: NO_FACTS,
};

const UNSORTED: &str =
    r#""c":{"value":"1","dimensions":{"concept":"eg:A"}},"a":{"value":"1","dimensions":{"concept":"eg:B"}},"b":{"value":"2","dimensions":{"concept":"eg:A"}}"#;

fn levels_hold(rt: &HostRuntime, sheet: &Sheet, table: &Table<(usize, Level)>) -> bool {
    for ((count, level), texts) in table.rows {
        let answer = HasLevel(*count, *level);
        if !row_holds(rt, sheet, (table.start, table.end), &answer, texts) {
            return false;
        }
    }
    true
}

fn all_levels_hold(rt: &HostRuntime, sheet: &Sheet) -> bool {
    levels_hold(rt, sheet, &LEVELS) && levels_hold(rt, sheet, &RENAMED)
}

#[test]
fn reports_have_the_levels_of_their_facts(rt: HostRuntime) {
    assert!(rt; holds_under_sheet(&rt, all_levels_hold));
}

fn declared_hold(rt: &HostRuntime, sheet: &Sheet) -> bool {
    let table: &Table<Level> = &DECLARED;
    for (level, texts) in table.rows {
        if !row_holds(
            rt,
            sheet,
            (table.start, table.end),
            &Declares(*level),
            texts,
        ) {
            return false;
        }
    }
    true
}

fn kept_hold(rt: &HostRuntime, sheet: &Sheet, table: &Table<&[&str]>) -> bool {
    for (kept, texts) in table.rows {
        if !row_holds(rt, sheet, (table.start, table.end), &Keeps(kept), texts) {
            return false;
        }
    }
    true
}

fn all_kept_hold(rt: &HostRuntime, sheet: &Sheet) -> bool {
    kept_hold(rt, sheet, &references::KEPT)
        && kept_hold(rt, sheet, &references::KEPT_ON_BASE)
        && kept_hold(rt, sheet, &KEPT)
}

#[test]
fn references_are_kept(rt: HostRuntime) {
    assert!(rt; holds_under_sheet(&rt, all_kept_hold));
}

#[test]
fn references_are_resolved_against_a_base_url(rt: HostRuntime) {
    assert!(rt; hold(&rt, references::TABLES));
}

#[test]
fn features_declare_levels(rt: HostRuntime) {
    assert!(rt; hold(&rt, features::TABLES));
}

#[test]
fn a_level_may_be_looser_than_the_facts(rt: HostRuntime) {
    assert!(rt; holds_under_sheet(&rt, declared_hold));
}

const TWO_NAMESPACES: &str =
    r#"{"namespaces":{"eg":"http://example.org/t","x":"http://example.org/u"},"concepts":{"eg:B":"text","eg:C":"text","x:A":"text"}}"#;

// The prefixes `eg` and `zz` have one URI.
const TWO_PREFIXES: &str =
    r#"{"value":"","dimensions":{"concept":"x:A"}},"a":{"value":"","dimensions":{"concept":"eg:C"}},"b":{"value":"1","dimensions":{"concept":"eg:B"}},"c":{"value":"0","dimensions":{"concept":"zz:B"}}"#;

/// Returns whether the facts are listed by identifier, and `order` sorts them by dimensions, then
/// by value.
fn is_sorted(
    rt: &HostRuntime,
    sheet: &str,
    parts: (&str, &str),
    concepts: &[&str],
    order: &[usize],
) -> bool {
    match read_sheet(rt, sheet) {
        Ok(sheet) => {
            let answer = Sorts(concepts, order);
            row_holds(rt, &sheet, (parts.0, END), &answer, &[parts.1])
        }
        Err(_) => false,
    }
}

#[test]
fn facts_are_in_order(rt: HostRuntime) {
    let parts = (INFO, UNSORTED);
    assert!(rt; is_sorted(&rt, SHEET, parts, &["B", "A", "A"], &[2, 1, 0]));
}

#[test]
fn facts_of_two_namespaces_are_in_order(rt: HostRuntime) {
    let parts = (FACT, TWO_PREFIXES);
    assert!(rt;
        is_sorted(
            &rt,
            TWO_NAMESPACES,
            parts,
            &["C", "B", "B", "A"],
            &[2, 1, 0, 3]
        )
    );
}
