use super::{HUNDRED_ONE, NINE_EVENTS, THREE, are_parts, played, with_memory, writes};
use crate::tests::calls::{AT_FIRST_FACT, HUNDRED, UNBOUND};
use crate::tests::sinks::sheet;
use fact_base::{Base, Evidence};
use oim_merge::{ReplayFault, Replayed};
use oim_report::Sheet;
use std::alloc::{AllocError, Global};
use test_helpers::asked_again::holds;
use test_helpers::canonical_parts::{
    CONSISTENT_HEAD, CONTRADICTING_HEAD, END, HEAD, MIDDLE, MIDDLE_ALONE, ONE_URI, WRITTEN_BOTH,
    WRITTEN_HUNDRED,
};

type Parts = &'static [&'static str];

const NOTHING: Parts = &[HEAD, MIDDLE_ALONE, END];

const ONE: Parts = &[HEAD, ONE_URI, MIDDLE, WRITTEN_HUNDRED, END];

const BOTH: Parts = &[CONSISTENT_HEAD, ONE_URI, MIDDLE, WRITTEN_BOTH, END];

const ALL_THREE: Parts = &[
    CONTRADICTING_HEAD,
    ONE_URI,
    MIDDLE,
    WRITTEN_BOTH,
    r#","f3":{"decimals":0,"dimensions":{"concept":"n1:A"},"value":"102"}"#,
    END,
];

/// A schedule and its result. The schedule contains the facts of the reports and the lines of the
/// events. The result contains the texts of the replicas, the sent texts, and for each refused take
/// the number of its report.
#[derive(Clone, Copy)]
struct Schedule {
    reports: &'static [&'static str],
    lines: &'static str,
    texts: &'static [Parts],
    sent: &'static [Parts],
    refused: &'static [u64],
}

const SCHEDULES: &[Schedule] = &[
    // a text is received twice, and facts arrive by two routes
    Schedule {
        reports: THREE,
        lines: "take 1 1\nsend 1\ntake 2 2\nreceive 2 1\nreceive 2 1\njoin 1 2\n",
        texts: &[BOTH, BOTH],
        sent: &[ONE],
        refused: &[],
    },
    Schedule {
        reports: THREE,
        lines: NINE_EVENTS,
        texts: &[BOTH, BOTH, ALL_THREE],
        sent: &[ONE, BOTH],
        refused: &[],
    },
    // a restart, and then an old text
    Schedule {
        reports: THREE,
        lines: "take 1 1\nsend 1\ntake 2 2\nreceive 2 1\nsend 2\ntake 3 3\nreceive 3 2\nreceive 3 1\njoin 1 2\nrestart 3\nreceive 3 1\n",
        texts: &[BOTH, BOTH, ONE],
        sent: &[ONE, BOTH],
        refused: &[],
    },
    // refused takes
    Schedule {
        reports: &[UNBOUND],
        lines: "take 1 1\nsend 1\nreceive 2 1\n",
        texts: &[NOTHING, NOTHING],
        sent: &[NOTHING],
        refused: &[1],
    },
    Schedule {
        reports: &[HUNDRED, UNBOUND, HUNDRED_ONE],
        lines: "take 1 1\ntake 1 2\ntake 2 2\ntake 1 3\ntake 1 2\n",
        texts: &[BOTH, NOTHING],
        sent: &[],
        refused: &[2, 2, 2],
    },
    // a report that no event takes is not refused
    Schedule {
        reports: &[UNBOUND],
        lines: "",
        texts: &[NOTHING, NOTHING],
        sent: &[],
        refused: &[],
    },
    Schedule {
        reports: &[],
        lines: "",
        texts: &[],
        sent: &[],
        refused: &[],
    },
    // a replica joins itself and receives its own text
    Schedule {
        reports: THREE,
        lines: "take 1 1\njoin 1 1\nsend 1\nreceive 1 1\njoin 2 2\n",
        texts: &[ONE, NOTHING],
        sent: &[ONE],
        refused: &[],
    },
    // an old text is received after a newer text
    Schedule {
        reports: THREE,
        lines: "take 1 1\nsend 1\ntake 1 2\nsend 1\nreceive 2 2\nreceive 2 1\n",
        texts: &[BOTH, BOTH],
        sent: &[ONE, BOTH],
        refused: &[],
    },
    // a restart between sending and receiving
    Schedule {
        reports: THREE,
        lines: "take 1 1\nsend 1\nrestart 1\nsend 1\nreceive 2 1\nreceive 2 2\n",
        texts: &[NOTHING, ONE],
        sent: &[ONE, NOTHING],
        refused: &[],
    },
    // a replica keeps the facts of another replica that restarts later
    Schedule {
        reports: THREE,
        lines: "take 1 1\ntake 2 2\njoin 2 1\nrestart 1\njoin 1 2\nrestart 2",
        texts: &[BOTH, NOTHING],
        sent: &[],
        refused: &[],
    },
];

fn have_texts(alloc: Global, replayed: &Replayed<'_>, texts: &[Parts]) -> Result<bool, AllocError> {
    for (index, parts) in texts.iter().enumerate() {
        let Some(base) = replayed.replica(index + 1) else {
            return Ok(false);
        };
        if !writes(alloc, base, parts)? {
            return Ok(false);
        }
    }
    Ok(
        replayed.replicas().len() == texts.len()
            && replayed.replica(0).is_none()
            && replayed.replica(texts.len() + 1).is_none(),
    )
}

fn were_sent(replayed: &Replayed<'_>, texts: &[Parts]) -> bool {
    for (index, parts) in texts.iter().enumerate() {
        match replayed.sent(index + 1) {
            Some(text) if are_parts(text.as_bytes(), parts) => {}
            _ => return false,
        }
    }
    replayed.sent(0).is_none() && replayed.sent(texts.len() + 1).is_none()
}

/// True if exactly the takes of these reports were refused, in this order, with `AT_FIRST_FACT`.
fn were_refused(replayed: &Replayed<'_>, reports: &[u64]) -> bool {
    let mut left = reports;
    for (report, refusal) in replayed.refused().as_slice() {
        match left.split_first() {
            Some((first, rest)) if report == first && *refusal == AT_FIRST_FACT => left = rest,
            _ => return false,
        }
    }
    left.is_empty()
}

fn leaves_its_texts(alloc: Global, sheet: &Sheet, schedule: &Schedule) -> Result<bool, AllocError> {
    let n = schedule.texts.len();
    match with_memory(played(alloc, sheet, n, schedule.reports, schedule.lines))? {
        Err(_) => Ok(false),
        Ok(replayed) => Ok(
            have_texts(alloc, &replayed, schedule.texts)?
                && were_sent(&replayed, schedule.sent)
                && were_refused(&replayed, schedule.refused),
        ),
    }
}

fn all_leave_their_texts(alloc: Global) -> Result<bool, AllocError> {
    let sheet = sheet(alloc)?;
    for schedule in SCHEDULES {
        if !leaves_its_texts(alloc, &sheet, schedule)? {
            return Ok(false);
        }
    }
    Ok(true)
}

fn evidence(base: &Base<'_>) -> Option<Evidence> {
    let row = base.rows().next()?;
    Some(row.evidence())
}

fn tells_what_is_apart(alloc: Global) -> Result<bool, AllocError> {
    let sheet = sheet(alloc)?;
    Ok(
        match with_memory(played(alloc, &sheet, 3, THREE, NINE_EVENTS))? {
            Ok(replayed) => replayed.replica(3).and_then(evidence) == Some(Evidence::Apart(0, 2)),
            Err(_) => false,
        },
    )
}

/// The number of replicas, the event lines, and the number of the first line that names a replica,
/// a report or a sent message that does not exist. There are two reports.
const MISSING: &[(usize, &str, u64)] = &[
    (2, "receive 1 1", 1),
    (2, "take 3 1", 1),
    (2, "take 1 3", 1),
    (2, "take 1 4294967295", 1),
    (2, "send 3", 1),
    (2, "restart 3", 1),
    (2, "join 3 1", 1),
    (2, "join 1 3", 1),
    (2, "send 1\nreceive 3 1", 2),
    (2, "take 1 1\nsend 1\nreceive 2 2\nreceive 2 1\n", 3),
    (2, "receive 2 1\nsend 1\n", 1),
    (2, "take 1 1\nsend 9\ntake 9 9\n", 2),
    (2, "take 1 2\ntake 3 1\n", 2),
    (2, "send 1\nrestart 1\nreceive 1 1\nreceive 1 2", 4),
    (0, "send 1", 1),
];

fn is_refused_at(
    alloc: Global,
    sheet: &Sheet,
    n: usize,
    lines: &str,
    line: u64,
) -> Result<bool, AllocError> {
    let answer = with_memory(played(alloc, sheet, n, &[HUNDRED, UNBOUND], lines))?;
    Ok(matches!(answer, Err(ReplayFault::BadEvent(at)) if at == line))
}

fn missing_are_refused(alloc: Global) -> Result<bool, AllocError> {
    let sheet = sheet(alloc)?;
    for (n, lines, line) in MISSING {
        if !is_refused_at(alloc, &sheet, *n, lines, *line)? {
            return Ok(false);
        }
    }
    Ok(true)
}

#[test]
fn replicas_have_what_reached_them(rt: HostRuntime) {
    assert!(rt; holds(&rt, all_leave_their_texts));
}

#[test]
fn a_replica_judges_what_reached_it(rt: HostRuntime) {
    assert!(rt; holds(&rt, tells_what_is_apart));
}

#[test]
fn events_that_name_what_is_not_there_are_bad(rt: HostRuntime) {
    assert!(rt; holds(&rt, missing_are_refused));
}
