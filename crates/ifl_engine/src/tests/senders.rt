//! Four senders beside a task worker, with a thousand frames each, over each kind of adapter.
use super::*;

const FRAMES: u32 = 1_000;

/// How many bytes frame `k` has.
fn length_of(k: u32) -> u32 {
    (k.wrapping_mul(37) % 1455).wrapping_add(60)
}

/// Appends the record of frame `k`, whose byte i is `(k + i) mod 256`; it was captured at `k` seconds.
fn put_frame(out: &mut Vec<u8>, k: u32) -> Result<(), Fail> {
    let len = length_of(k);
    out.extend_from_slice(&k.to_le_bytes())?;
    out.extend_from_slice(&[0; 4])?;
    out.extend_from_slice(&len.to_le_bytes())?;
    out.extend_from_slice(&len.to_le_bytes())?;
    for i in 0..len {
        out.push((k.wrapping_add(i) % 256) as u8)?;
    }
    Ok(())
}

/// A capture of all frames.
fn many_frames(alloc: Global) -> Result<Vec<u8>, Fail> {
    let mut bytes = Vec::from_slice(alloc, &HEADER)?;
    for k in 0..FRAMES {
        put_frame(&mut bytes, k)?;
    }
    Ok(bytes)
}

/// Four captures of all frames, and a settings file.
fn four_captures(alloc: Global, settings: &str) -> Result<Vec<FileEntry>, Fail> {
    let mut files = one_file(alloc, "s", Vec::from_slice(alloc, settings.as_bytes())?)?;
    for name in ["a", "b", "c", "d"] {
        files.push(FileEntry {
            name: String::from_str(alloc, name)?,
            bytes: Items::from_vec(many_frames(alloc)?),
        })?;
    }
    Ok(files)
}

/// Whether each sender's lines stand in the order of its records, one for each.
fn are_in_file_order(report: &Report) -> bool {
    let mut next = [0u32; 4];
    for line in report.order.as_slice() {
        match next.get_mut(line.ticket.sender as usize) {
            Some(record) if *record == line.ticket.index => *record = record.wrapping_add(1),
            _ => return false,
        }
    }
    next == [FRAMES; 4]
}

/// The capture of the frames with fate `wire`, in the order of their lines.
fn wire_of(alloc: Global, report: &Report) -> Result<Vec<u8>, Fail> {
    let mut bytes = Vec::from_slice(alloc, &HEADER)?;
    for line in report.order.as_slice() {
        if matches!(line.fate, Fate::Wire) {
            put_frame(&mut bytes, line.ticket.index)?;
        }
    }
    Ok(bytes)
}

#[test]
fn four_senders_lose_nothing(rt: HostRuntime) -> Result<(), Fail> {
    let alloc = rt.alloc();
    let words = words_of(alloc, "send --settings s --wire w --order o a b c d")?;
    for kind in ["legacy", "writeback", "generation"] {
        let settings = format!(in alloc; "[adapter]\nkind = \"{kind}\"\n")?;
        let mut host = SteadyHost::new(alloc, four_captures(alloc, settings.as_str())?)?;
        let finished = run(&rt, alloc, &words, &mut host, &FreeGate);
        assert_eq!(rt; finished.status, 0, "{kind}");
        let Some(report) = finished.report else {
            panic!(rt; "no report")
        };
        assert_eq!(rt; report.plain.wire, 4_000, "{kind}");
        assert_eq!(rt; report.away.len(), 0, "{kind}");
        assert_eq!(rt; report.pool.count(), 4_096, "{kind}");
        assert!(rt; are_in_file_order(&report), "{kind}");
        let wire = wire_of(alloc, &report)?;
        assert_eq!(rt;
            held(host.files(), "w") == Some(wire.as_slice()),
            true,
            "{kind}"
        );
    }
    Ok(())
}

/// Whether each line is of fate `wire` or `reset`, and before each line of fate `reset` stand a hundred of fate `wire`.
fn resets_come_after_a_hundred(report: &Report) -> bool {
    let mut wires = 0u32;
    for line in report.order.as_slice() {
        match line.fate {
            Fate::Wire => wires = wires.wrapping_add(1),
            Fate::Reset if wires == 100 => {}
            _ => return false,
        }
    }
    true
}

#[test]
fn an_engine_that_hangs_loses_what_it_holds_and_no_more(rt: HostRuntime) -> Result<(), Fail> {
    let alloc = rt.alloc();
    let words = words_of(alloc, "send --settings s --wire w --order o a b c d")?;
    for kind in ["legacy", "writeback", "generation"] {
        let settings = format!(in alloc; "[adapter]\nkind = \"{kind}\"\nhang_after = 100\n")?;
        let mut host = SteadyHost::new(alloc, four_captures(alloc, settings.as_str())?)?;
        let finished = run(&rt, alloc, &words, &mut host, &FreeGate);
        assert_eq!(rt; finished.status, 0, "{kind}");
        let Some(report) = finished.report else {
            panic!(rt; "no report")
        };
        assert_eq!(rt;
            report.plain.wire.saturating_add(report.plain.reset),
            4_000,
            "{kind}"
        );
        assert!(rt; 0 < report.plain.reset, "{kind}");
        assert!(rt; resets_come_after_a_hundred(&report), "{kind}");
        assert!(rt; are_in_file_order(&report), "{kind}");
        assert_eq!(rt; report.pool.count(), 4_096, "{kind}");
        let wire = wire_of(alloc, &report)?;
        assert_eq!(rt;
            held(host.files(), "w") == Some(wire.as_slice()),
            true,
            "{kind}"
        );
    }
    Ok(())
}
