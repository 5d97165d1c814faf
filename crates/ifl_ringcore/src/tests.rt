use super::*;
use ifl_base::Items;
use std::alloc::Global;
use std::test::*;

/// Schedules, and what replaying them prints.
const ROWS: [(&str, &str); 9] = [
    // A refusal sees an idle word, since nothing is published.
    (
        "ring 4 3\nreserve 0 1\nreserve 1 1\nrefuse 2 1\n",
        "0000000000000001 idle\n0000000000000002 idle\n0000000000000002 idle\n\
         starts 0 stalls 0 restarts 0 abdications 0 enqueues 0 drops 1\n",
    ),
    // The word comes back to its first value.
    (
        "ring 4 1\nreserve 0 1\nelected 0 32\nidle 0 1\nreserve 0 1\nelected 0 32\nidle 0 1\n\
         reserve 0 1\nelected 0 32\nidle 0 1\nreserve 0 1\nelected 0 32\nidle 0 1\n",
        "0000000000000001 idle\n0001000000010001 busy\n0000000100010001 idle\n\
         0000000100010002 idle\n0001000100020002 busy\n0000000200020002 idle\n\
         0000000200020003 idle\n0001000200030003 busy\n0000000300030003 idle\n\
         0000000300030000 idle\n0001000300000000 busy\n0000000000000000 idle\n\
         starts 4 stalls 0 restarts 0 abdications 0 enqueues 4 drops 0\n",
    ),
    // The second reservation may not be published before the first.
    (
        "ring 4 2\nreserve 0 1\nreserve 1 1\nelected 1 32\n",
        "0000000000000001 idle\n0000000000000002 idle\ntrace: line 4: Turn\n",
    ),
    // A consumer spends its budget, and leaves the rest to the next publisher.
    (
        "ring 8 3\nreserve 0 1\nelected 0 2\nreserve 1 1\nbehind 1\nadvance 0 1\nreserve 1 1\n\
         behind 1\nreserve 2 1\nabdicate 0 1\nelected 2 2\nidle 2 2\n",
        "0000000000000001 idle\n0001000000010001 busy\n0001000000010002 busy\n\
         0001000000020002 busy\n0001000100020002 busy\n0001000100020003 busy\n\
         0001000100030003 busy\n0001000100030004 busy\n0003000200030004 abdicated\n\
         0001000200040004 busy\n0000000400040004 idle\n\
         starts 1 stalls 0 restarts 0 abdications 1 enqueues 4 drops 0\n",
    ),
    // A drain that began on a stalled ring and consumed nothing is no further stall.
    (
        "ring 4 2\nreserve 0 1\nelected 0 32\nstall 0 0\ntakeover 1 0\nstall 1 0\n\
         takeover 1 32\nidle 1 1\n",
        "0000000000000001 idle\n0001000000010001 busy\n0002000000010001 stalled\n\
         0001000000010001 busy\n0002000000010001 stalled\n0001000000010001 busy\n\
         0000000100010001 idle\n\
         starts 1 stalls 1 restarts 1 abdications 0 enqueues 1 drops 0\n",
    ),
    ("ring 4 1\nreserve 0 2\n", "trace: line 2: Count\n"),
    ("ring 3 1\n", "trace: line 1: Line\n"),
    // A last line without its line feed, and an empty text.
    ("ring 4 1\nlook 0", "trace: line 2: Line\n"),
    ("", "trace: line 1: Line\n"),
];

/// What a schedule's text prints.
fn printed(alloc: Global, text: &[u8]) -> Result<Items<u8>, Fail> {
    if text.len() > 1_048_576 {
        return Err(Fail::from("a long text"));
    }
    match read_schedule(alloc, text) {
        Ok(schedule) => Ok(replay(alloc, &schedule)?.text),
        Err(ScheduleFault::Line(line)) => Ok(Items::from_vec(format!(in alloc;
            "trace: line {line}: Line\n"
        )?.into_bytes())),
        Err(ScheduleFault::Memory) => Err(Fail::from("no memory")),
    }
}

#[test]
fn schedules_print_their_words_and_counters(rt: HostRuntime) -> Result<(), Fail> {
    for (schedule, text) in ROWS {
        let made = printed(rt.alloc(), schedule.as_bytes())?;
        assert!(rt; made.as_slice() == text.as_bytes(), "{schedule}");
    }
    Ok(())
}

#[test]
fn conditions_print_their_names(rt: HostRuntime) -> Result<(), Fail> {
    for condition in [
        Illegal::Seat,
        Illegal::Count,
        Illegal::Role,
        Illegal::Pending,
        Illegal::NoReservation,
        Illegal::Turn,
        Illegal::Flag,
        Illegal::Room,
        Illegal::Known,
        Illegal::Update,
        Illegal::Left,
        Illegal::Budget,
        Illegal::Quiet,
    ] {
        let text = format!(in rt.alloc(); "{condition}")?;
        assert_eq!(rt; text.as_str(), condition.name());
    }
    Ok(())
}
