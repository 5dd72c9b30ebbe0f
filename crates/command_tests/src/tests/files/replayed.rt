use super::rows::{FIRST, Full, NOT_READ, Row, SECOND};
use test_helpers::canonical_parts::{
    CONSISTENT_HEAD, END, HEAD, MIDDLE, MIDDLE_ALONE, ONE_URI, WRITTEN_HUNDRED,
};

const LINE_END: &str = "\n";

/// The texts of two replicas without facts.
const NOTHING_TWICE: &[&str] = &[
    HEAD,
    MIDDLE_ALONE,
    END,
    LINE_END,
    HEAD,
    MIDDLE_ALONE,
    END,
    LINE_END,
];

/// The texts of two replicas, each with the values 100 and 101.
const BOTH_TWICE: &[&str] = &[
    CONSISTENT_HEAD,
    ONE_URI,
    MIDDLE,
    FIRST,
    r#""101"}"#,
    END,
    LINE_END,
    CONSISTENT_HEAD,
    ONE_URI,
    MIDDLE,
    FIRST,
    r#""101"}"#,
    END,
    LINE_END,
];

/// The texts of a replica with the value 100 and of a replica without facts.
const ONE_AND_NOTHING: &[&str] = &[
    HEAD,
    ONE_URI,
    MIDDLE,
    WRITTEN_HUNDRED,
    END,
    LINE_END,
    HEAD,
    MIDDLE_ALONE,
    END,
    LINE_END,
];

const FIRST_UNBOUND: &str = "report 1: 13 UnboundPrefix at fact 1\n";

const THIRD_LINE: &str = "event 3: refused\n";

const MISSING: &str = "file missing: cannot be read\n";

pub(super) const REPLAYED: [Row; 7] = [
    (
        "replay --sheet sheet --replicas 2 --events mail 100 101",
        0,
        BOTH_TWICE,
        "",
    ),
    (
        "replay --sheet sheet --replicas 2 --events empty",
        0,
        NOTHING_TWICE,
        "",
    ),
    // a report that no event takes is not refused
    (
        "replay --sheet sheet --replicas 2 --events empty unbound empty",
        0,
        NOTHING_TWICE,
        "",
    ),
    (
        "replay --sheet sheet --replicas 2 --events once unbound",
        1,
        NOTHING_TWICE,
        FIRST_UNBOUND,
    ),
    (
        "replay --sheet sheet --replicas 2 --events again unbound 100",
        1,
        ONE_AND_NOTHING,
        "report 1: 13 UnboundPrefix at fact 1\nreport 1: 13 UnboundPrefix at fact 1\n",
    ),
    (
        "replay --sheet sheet --replicas 2 --events again 100 unbound",
        1,
        &[
            HEAD,
            ONE_URI,
            MIDDLE,
            WRITTEN_HUNDRED,
            END,
            LINE_END,
            HEAD,
            ONE_URI,
            MIDDLE,
            WRITTEN_HUNDRED,
            END,
            LINE_END,
        ],
        SECOND,
    ),
    (
        "replay --sheet sheet --replicas 2 --events again empty zz",
        1,
        ONE_AND_NOTHING,
        "report 1: 1 NotJson at document\nreport 1: 1 NotJson at document\n",
    ),
];

/// A bad event, a file that cannot be read, or a refused sheet ends the run. Only the line about
/// this cause is printed.
pub(super) const STOPPED: [Row; 15] = [
    // a line that is not an event, before any report is opened
    (
        "replay --sheet sheet --replicas 2 --events spaced none",
        3,
        &[],
        THIRD_LINE,
    ),
    (
        "replay --sheet sheet --replicas 2 --events spaced unbound",
        3,
        &[],
        THIRD_LINE,
    ),
    (
        "replay --sheet sheet --replicas 2 --events list 100",
        3,
        &[],
        "event 1: refused\n",
    ),
    // an event that names a missing report, replica or message is refused after all reports are
    // read
    (
        "replay --sheet sheet --replicas 2 --events late 100",
        3,
        &[],
        THIRD_LINE,
    ),
    (
        "replay --sheet sheet --replicas 2 --events late unbound",
        3,
        &[],
        THIRD_LINE,
    ),
    (
        "replay --sheet sheet --replicas 2 --events late 100 none",
        3,
        &[],
        NOT_READ,
    ),
    (
        "replay --sheet sheet --replicas 1 --events mail 100 101",
        3,
        &[],
        THIRD_LINE,
    ),
    (
        "replay --sheet sheet --replicas 2 --events mail 100",
        3,
        &[],
        THIRD_LINE,
    ),
    (
        "replay --sheet sheet --replicas 2 --events once",
        3,
        &[],
        "event 1: refused\n",
    ),
    // the sheet is read before the events, and the events before the reports
    (
        "replay --sheet sheet --replicas 2 --events missing none",
        3,
        &[],
        MISSING,
    ),
    (
        "replay --sheet sheet --replicas 2 --events . none",
        3,
        &[],
        "file .: cannot be read\n",
    ),
    (
        "replay --sheet none --replicas 2 --events missing",
        3,
        &[],
        NOT_READ,
    ),
    (
        "replay --sheet list --replicas 2 --events missing none",
        3,
        &[],
        "sheet: 2 MemberForm\n",
    ),
    (
        "replay --sheet list --replicas 2 --events spaced",
        3,
        &[],
        "sheet: 2 MemberForm\n",
    ),
    (
        "replay --sheet sheet --replicas 64 --events mail none 101",
        3,
        &[],
        NOT_READ,
    ),
];

/// Standard output fills up before, in, between or after the texts. The line reports all bytes that
/// were taken.
pub(super) const FULL: [Full; 6] = [
    (
        "replay --sheet sheet --replicas 2 --events empty",
        0,
        "device: 0 bytes written\n",
    ),
    (
        "replay --sheet sheet --replicas 2 --events empty",
        183,
        "device: 183 bytes written\n",
    ),
    (
        "replay --sheet sheet --replicas 2 --events empty",
        184,
        "device: 184 bytes written\n",
    ),
    (
        "replay --sheet sheet --replicas 2 --events once unbound",
        225,
        "device: 225 bytes written\n",
    ),
    (
        "replay --sheet sheet --replicas 2 --events empty",
        367,
        "device: 367 bytes written\n",
    ),
    (
        "replay --sheet sheet --replicas 2 --events mail 100 101",
        400,
        "device: 400 bytes written\n",
    ),
];

/// Standard output takes all bytes, but the flush fails. A run with a refused event does not flush.
pub(super) const UNFLUSHED: [(&str, &str); 2] = [
    (
        "replay --sheet sheet --replicas 2 --events once unbound",
        "device: 368 bytes written\n",
    ),
    (
        "replay --sheet sheet --replicas 2 --events late 100",
        THIRD_LINE,
    ),
];

/// The status and standard output when standard error takes only three bytes.
pub(super) const UNHEARD: [Row; 2] = [
    (
        "replay --sheet sheet --replicas 2 --events once unbound",
        1,
        NOTHING_TWICE,
        "",
    ),
    (
        "replay --sheet sheet --replicas 2 --events late 100",
        3,
        &[],
        "",
    ),
];
