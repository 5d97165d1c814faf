//! Runs whose outcome their settings determine, over each kind of adapter.
use super::*;
use ifl_ringcore::Counters;

const KINDS: [&str; 3] = ["legacy", "writeback", "generation"];

/// The settings of a run whose adapter starts after its one sender, so that nothing is drained beside it.
const AFTERWARDS: &str = "[frames]\npolicy = \"drop\"\n[adapter]\nstart = \"after_senders\"\n";

/// Settings of the adapter, those of other tables, the lengths of a capture's frames, and the order text.
///
/// In the first, the ring holds two items, and the drainer of the first frame stalls on an adapter that holds one: so
/// three frames are taken, and the others are refused by a stalled ring with places 3, 3 and 1.
const OUTCOMES: [(&str, &str, &[u8], &str); 6] = [
    (
        "descriptors = 8\nmax_segs = 4\n",
        "[frames]\npolicy = \"drop\"\nmax_frame = 2048\n[ring]\nsize = 4\n",
        &[60, 60, 60, 60, 60],
        "accepted 3\n0 0 wire\n0 1 wire\n0 2 wire\naway 2\n0 3 no_buffers 3 3 1 stalled\n0 4 no_buffers 3 3 1 stalled\n",
    ),
    (
        "hang_after = 3\n",
        "[frames]\npolicy = \"drop\"\n",
        &[60, 60, 60, 60, 60],
        "accepted 5\n0 0 wire\n0 1 wire\n0 2 wire\n0 3 reset\n0 4 reset\naway 0\n",
    ),
    (
        "",
        "[frames]\npolicy = \"drop\"\n[stop]\nmode = \"flush\"\nafter = 2\n",
        &[60, 60, 60, 60, 60],
        "accepted 5\n0 0 wire\n0 1 wire\n0 2 flush\n0 3 flush\n0 4 flush\naway 0\n",
    ),
    (
        "",
        "[frames]\npolicy = \"drop\"\n[stop]\nmode = \"flush\"\n",
        &[60, 61],
        "accepted 2\n0 0 flush\n0 1 flush\naway 0\n",
    ),
    (
        "link_down_after = 1\nlink_down_turns = 2\n",
        "[frames]\npolicy = \"drop\"\n",
        &[60, 60, 60],
        "accepted 3\n0 0 wire\n0 1 wire\n0 2 wire\naway 0\n",
    ),
    (
        "",
        "[frames]\npolicy = \"drop\"\n[ring]\nabdicate = true\n",
        &[60, 13, 61],
        "accepted 2\n0 0 wire\n0 2 wire\naway 1\n0 1 runt\n",
    ),
];

/// The settings file and a capture of these frames.
fn settings_and_capture(
    alloc: Global,
    settings: &str,
    capture: Vec<u8>,
) -> Result<Vec<FileEntry>, Fail> {
    let mut files = one_file(alloc, "f", capture)?;
    files.push(FileEntry {
        name: String::from_str(alloc, "s")?,
        bytes: Items::from_vec(Vec::from_slice(alloc, settings.as_bytes())?),
    })?;
    Ok(files)
}

#[test]
fn a_run_has_one_outcome_where_the_adapter_starts_last(rt: HostRuntime) -> Result<(), Fail> {
    let alloc = rt.alloc();
    let words = words_of(alloc, "send --settings s --wire w --order o f")?;
    for kind in KINDS {
        for (adapter, others, lengths, order) in OUTCOMES {
            let settings = format!(in alloc;
                "{others}[adapter]\nstart = \"after_senders\"\nkind = \"{kind}\"\n{adapter}"
            )?;
            let files = settings_and_capture(
                alloc,
                settings.as_str(),
                capture_of(alloc, lengths)?,
            )?;
            let mut host = MemoryHost::new(alloc, files, Vec::new(alloc))?;
            let finished = run(&rt, alloc, &words, &mut host, &FreeGate);
            assert_eq!(rt; finished.status, 0, "{settings}");
            assert_eq!(rt;
                held(host.files(), "o"),
                Some(order.as_bytes()),
                "{settings}"
            );
            let Some(report) = finished.report else {
                panic!(rt; "no report")
            };
            assert_eq!(rt; report.pool.count(), 4_096, "{settings}");
        }
    }
    Ok(())
}

/// A capture of one frame of 65,536 bytes, all of them 0.
fn largest_frame(alloc: Global) -> Result<Vec<u8>, Fail> {
    let mut capture = Vec::from_slice(alloc, &HEADER)?;
    capture.extend_from_slice(&[0, 0, 0, 0, 0, 0, 0, 0, 0, 0, 1, 0, 0, 0, 1, 0])?;
    capture.extend_from_slice(&vec![in alloc; 0u8; 65_536]?)?;
    Ok(capture)
}

#[test]
fn a_frame_of_too_many_segments_is_accepted_and_not_sent(rt: HostRuntime) -> Result<(), Fail> {
    let alloc = rt.alloc();
    let words = words_of(alloc, "send --settings s --wire w --order o f")?;
    for kind in KINDS {
        for (max_segs, fate) in [(32, "wire"), (31, "too_many_segments")] {
            let settings = format!(in alloc;
                "[adapter]\nkind = \"{kind}\"\nmax_segs = {max_segs}\n"
            )?;
            let files = settings_and_capture(alloc, settings.as_str(), largest_frame(alloc)?)?;
            let mut host = MemoryHost::new(alloc, files, Vec::new(alloc))?;
            let finished = run(&rt, alloc, &words, &mut host, &FreeGate);
            assert_eq!(rt; finished.status, 0, "{settings}");
            let order = format!(in alloc; "accepted 1\n0 0 {fate}\naway 0\n")?;
            assert_eq!(rt;
                held(host.files(), "o"),
                Some(order.as_bytes()),
                "{settings}"
            );
            let wire = largest_frame(alloc)?;
            let len = if max_segs == 32 {
                wire.len()
            } else {
                HEADER.len()
            };
            assert_eq!(rt; held(host.files(), "w"), wire.get(..len), "{settings}");
        }
    }
    Ok(())
}

#[test]
fn counters_of_the_ring_are_printed_where_they_are_asked_for(rt: HostRuntime) -> Result<(), Fail> {
    let alloc = rt.alloc();
    let words = words_of(alloc, "send --settings s --wire w --order o --ring f")?;
    let files = settings_and_capture(alloc, AFTERWARDS, capture_of(alloc, &[60, 60])?)?;
    let mut host = MemoryHost::new(alloc, files, Vec::new(alloc))?;
    let finished = run(&rt, alloc, &words, &mut host, &FreeGate);
    assert_eq!(rt; finished.status, 0);
    let Some(report) = finished.report else {
        panic!(rt; "no report")
    };
    let Counters {
        starts,
        stalls,
        restarts,
        abdications,
        enqueues,
        drops,
    } = report.ring;
    assert!(rt; 2 <= enqueues);
    assert_eq!(rt; drops, 0);
    let counters =
        "frames 2\nwire 2\nwire_bytes 120\nrunt 0\noversize 0\nno_buffers 0\nno_clusters 0\ntoo_many_segments 0\nreset 0\nflush 0\n";
    let expected = format!(in alloc;
        "{counters}ring_starts {starts}\nring_stalls {stalls}\nring_restarts {restarts}\nring_abdications {abdications}\nring_enqueues {enqueues}\nring_drops {drops}\n"
    )?;
    assert_eq!(rt; host.printed(), expected.as_bytes());
    Ok(())
}

#[test]
fn refusals_stand_in_the_counters_of_the_ring(rt: HostRuntime) -> Result<(), Fail> {
    let alloc = rt.alloc();
    let words = words_of(alloc, "send --ring --settings=s --wire=w --order=o f")?;
    let settings =
        "[ring]\nsize = 4\n[frames]\npolicy = \"drop\"\nmax_frame = 2048\n[adapter]\nstart = \"after_senders\"\ndescriptors = 8\nmax_segs = 4\n";
    let files = settings_and_capture(alloc, settings, capture_of(alloc, &[60; 5])?)?;
    let mut host = MemoryHost::new(alloc, files, Vec::new(alloc))?;
    let finished = run(&rt, alloc, &words, &mut host, &FreeGate);
    assert_eq!(rt; finished.status, 0);
    let printed = str::from_utf8(host.printed()).unwrap_or_default();
    assert!(rt; printed.contains("\nno_buffers 2\n"));
    assert!(rt; printed.ends_with("ring_drops 2\n"));
    assert_eq!(rt; printed.lines().count(), 16);
    let Some(report) = finished.report else {
        panic!(rt; "no report")
    };
    assert_eq!(rt; report.ring.drops, 2);
    Ok(())
}
