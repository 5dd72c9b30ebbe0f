use crate::tests::ran::{Real, ends, stops, words_of};
use std::test::Fail;
use test_helpers::devices::FullAfter;
use test_helpers::expecting::Expecting;

// clap writes the help and the errors. Which arguments are refused is proved. Of most texts, only
// the beginning is compared.

/// Returns whether the program ends with status 0 and prints a text that begins like this, on
/// standard output only.
fn is_answered(rt: &HostRuntime, words: &[&str], front: &str) -> bool {
    let out = Expecting::front(front.as_bytes());
    ends(rt, &mut Real, words, 0, out, Expecting::just(b""))
}

const USAGE: [(&str, &str); 7] = [
    (
        "merge r",
        "error: the following required arguments were not provided:
  --sheet <SHEET>

Usage: xbrlmerge merge --sheet <SHEET> [REPORT]...

For more information, try '--help'.
",
    ),
    (
        "merge --sheet s --allow some",
        "error: invalid value 'some' for '--allow <LEVEL>'
  [possible values: none, complete, consistent, all]

  tip: a similar value exists: 'complete'

For more information, try '--help'.
",
    ),
    (
        "replay r",
        "error: the following required arguments were not provided:
  --sheet <SHEET>
  --replicas <N>
  --events <EVENTS>

Usage: xbrlmerge replay --sheet <SHEET> --replicas <N> --events <EVENTS> [REPORT]...

For more information, try '--help'.
",
    ),
    (
        "replay --sheet s --replicas 65 --events e",
        "error: invalid value '65' for '--replicas <N>': 65 is not in 1..=64

For more information, try '--help'.
",
    ),
    (
        "n\u{1b}[2J\nreport",
        "error: unrecognized subcommand 'n\\u001b[2J\\u000areport'

Usage: xbrlmerge [COMMAND]

For more information, try '--help'.
",
    ),
    (
        "no",
        "error: unrecognized subcommand 'no'

Usage: xbrlmerge [COMMAND]

For more information, try '--help'.
",
    ),
    (
        "--",
        "error: a command is missing

Usage: xbrlmerge [COMMAND]

For more information, try '--help'.
",
    ),
];

#[test]
fn usage_tells_what_is_wrong(rt: HostRuntime) -> Result<(), Fail> {
    for (line, text) in USAGE {
        let words = words_of(&rt, line)?;
        assert!(rt;
            stops(&rt, &mut Real, &words, FullAfter::new(0), text),
            "{line}"
        );
    }
    Ok(())
}

const ANSWERED: [(&str, &str); 17] = [
    ("help", "Merges xBRL-JSON reports"),
    ("-h", "Merges xBRL-JSON reports"),
    ("--help", "Merges xBRL-JSON reports"),
    ("help merge", "Writes one canonical report"),
    ("merge -h", "Writes one canonical report"),
    ("merge --help", "Writes one canonical report"),
    ("merge r --sheet s --help", "Writes one canonical report"),
    ("help verdicts", "Prints a verdict for each set"),
    ("verdicts --help", "Prints a verdict for each set"),
    ("help sources", "Lists the reports that contain"),
    ("help check", "Counts the facts of reports"),
    ("help explain", "Explains what is wrong with reports"),
    ("check -h", "Counts the facts of reports"),
    ("help replay", "Runs a schedule"),
    ("replay --help", "Runs a schedule"),
    ("--version", "xbrlmerge 0.3.0-dev\n"),
    ("-V", "xbrlmerge 0.3.0-dev\n"),
];

#[test]
fn help_is_answered(rt: HostRuntime) -> Result<(), Fail> {
    for (line, front) in ANSWERED {
        let words = words_of(&rt, line)?;
        assert!(rt; is_answered(&rt, &words, front), "{line}");
    }
    Ok(())
}
