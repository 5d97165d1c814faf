use super::*;

/// Appends a file.
fn put_file(
    alloc: Global,
    files: &mut Vec<FileEntry>,
    name: &str,
    bytes: Vec<u8>,
) -> Result<(), Fail> {
    files.push(FileEntry {
        name: String::from_str(alloc, name)?,
        bytes: Items::from_vec(bytes),
    })?;
    Ok(())
}

/// A capture of so many records of no bytes.
fn empty_records(alloc: Global, count: usize) -> Result<Vec<u8>, Fail> {
    let mut bytes = vec![in alloc; 0u8; HEADER.len().saturating_add(count.saturating_mul(16))]?;
    if bytes.len() >= 24 {
        bytes[..24].copy_from_slice(&HEADER);
    }
    Ok(bytes)
}

/// Whether the wire has frames of these lengths, and the order record these lines of accepted frames: senders run side
/// by side, so that only the frames of each are in its order.
fn is_outcome(
    alloc: Global,
    host: &MemoryHost,
    lengths: &[u8],
    accepted: &str,
) -> Result<bool, Fail> {
    let order = format!(in alloc; "accepted 3\n{accepted}away 2\n0 1 runt\n1 0 runt\n")?;
    let wire = capture_of(alloc, lengths)?;
    Ok(
        held(host.files(), "w") == Some(wire.as_slice())
            && held(host.files(), "o") == Some(order.as_bytes()),
    )
}

#[test]
fn each_file_is_a_sender(rt: HostRuntime) -> Result<(), Fail> {
    let alloc = rt.alloc();
    let mut files = one_file(alloc, "f", capture_of(alloc, &[60, 13, 61])?)?;
    put_file(alloc, &mut files, "g", capture_of(alloc, &[12, 20])?)?;
    let mut host = MemoryHost::new(alloc, files, Vec::new(alloc))?;
    let words = words_of(alloc, "send --wire w --order o f g")?;
    assert_eq!(rt; run(&rt, alloc, &words, &mut host, &FreeGate).status, 0);
    assert!(rt;
        is_outcome(
            alloc,
            &host,
            &[60, 61, 20],
            "0 0 wire\n0 2 wire\n1 1 wire\n"
        )? || is_outcome(
            alloc,
            &host,
            &[60, 20, 61],
            "0 0 wire\n1 1 wire\n0 2 wire\n"
        )? || is_outcome(
            alloc,
            &host,
            &[20, 60, 61],
            "1 1 wire\n0 0 wire\n0 2 wire\n"
        )?
    );
    let counters =
        "frames 5\nwire 3\nwire_bytes 141\nrunt 2\noversize 0\nno_buffers 0\nno_clusters 0\ntoo_many_segments 0\nreset 0\nflush 0\n";
    assert_eq!(rt; host.printed(), counters.as_bytes());
    Ok(())
}

#[test]
fn a_file_that_stands_sixteen_times_is_sixteen_senders(rt: HostRuntime) -> Result<(), Fail> {
    let alloc = rt.alloc();
    let files = one_file(alloc, "f", capture_of(alloc, &[60])?)?;
    let mut host = MemoryHost::new(alloc, files, Vec::new(alloc))?;
    let words = words_of(
        alloc,
        "send --wire w --order o f f f f f f f f f f f f f f f f",
    )?;
    assert_eq!(rt; run(&rt, alloc, &words, &mut host, &FreeGate).status, 0);
    assert_eq!(rt;
        held(host.files(), "w"),
        Some(capture_of(alloc, &[60; 16])?.as_slice())
    );
    let order = str::from_utf8(held(host.files(), "o").unwrap_or_default()).unwrap_or_default();
    assert_eq!(rt; order.lines().count(), 18);
    for sender in 0..16u32 {
        let line = format!(in alloc; "\n{sender} 0 wire\n")?;
        assert!(rt; order.contains(line.as_str()), "of sender {sender}");
    }
    Ok(())
}

/// Words, a call of the host that fails, the status and the line that is printed. The files `f` and `g` are captures,
/// `b` and `c` are none, and `s` holds no settings.
const ORDER: [(&str, u32, u8, &str); 16] = [
    (
        "send --wire w --order a a a a a a a a a a a a a a a a a a",
        9,
        1,
        "words: names\n",
    ),
    (
        "send --settings a --wire w --order o a a a a a a a a a a a a a a a a a",
        9,
        7,
        "limit: files\n",
    ),
    (
        "send --wire w --order o f f f f f f f f f f f f f f f f f",
        1,
        7,
        "limit: files\n",
    ),
    (
        "send --settings r --wire w --order o a f",
        9,
        4,
        "absent: r\n",
    ),
    ("send --wire w --order o f d a", 9, 4, "absent: d\n"),
    (
        "send --settings s --wire w --order o b a",
        9,
        4,
        "absent: a\n",
    ),
    ("send --wire w --order o f g", 0, 5, "host: read f\n"),
    ("send --wire w --order o f g", 1, 5, "host: read g\n"),
    (
        "send --settings s --wire w --order o f g",
        2,
        5,
        "host: read g\n",
    ),
    ("send --wire w --order o f g", 2, 5, "host: write w\n"),
    ("send --wire w --order o f a", 1, 5, "host: read a\n"),
    (
        "send --settings s --wire w --order o f b",
        9,
        2,
        "settings: ring.size\n",
    ),
    (
        "send --wire w --order o f b",
        9,
        3,
        "capture: b at 24: RecordShort\n",
    ),
    (
        "send --wire w --order o b c",
        9,
        3,
        "capture: b at 24: RecordShort\n",
    ),
    (
        "send --wire w --order o f g c b",
        9,
        3,
        "capture: c at 0: Magic\n",
    ),
    (
        "send --wire w --order o b f",
        9,
        3,
        "capture: b at 24: RecordShort\n",
    ),
];

#[test]
fn the_first_file_at_fault_is_named(rt: HostRuntime) -> Result<(), Fail> {
    let alloc = rt.alloc();
    for (text, failing, status, line) in ORDER {
        let mut files = one_file(alloc, "f", capture_of(alloc, &[60])?)?;
        put_file(alloc, &mut files, "g", capture_of(alloc, &[61])?)?;
        let mut short = capture_of(alloc, &[])?;
        short.push(1)?;
        put_file(alloc, &mut files, "b", short)?;
        put_file(alloc, &mut files, "c", vec![in alloc; 0u8; 24]?)?;
        put_file(
            alloc,
            &mut files,
            "s",
            Vec::from_slice(alloc, b"[ring]\nsize = 3\n")?,
        )?;
        let mut host = MemoryHost::new(alloc, files, Vec::from_slice(alloc, &[failing])?)?;
        let finished = run(&rt, alloc, &words_of(alloc, text)?, &mut host, &FreeGate);
        assert_eq!(rt; finished.status, status, "{text}");
        assert_eq!(rt; host.printed(), line.as_bytes(), "{text}");
        assert_eq!(rt; host.files().len(), 5, "{text}");
    }
    Ok(())
}

/// Words and the status of each, for one host. The file `b` has 67,108,864 zeros, `e` is a capture of 24 bytes, and `s`
/// holds no settings.
const BYTES: [(&str, u8); 2] = [
    ("send --wire w --order o b b", 3),
    ("send --settings s --wire w --order o b e b", 7),
];

#[test]
fn the_bytes_of_all_files_are_counted_first(rt: HostRuntime) -> Result<(), Fail> {
    let alloc = rt.alloc();
    let mut files = one_file(alloc, "b", vec![in alloc; 0u8; 67_108_864]?)?;
    put_file(alloc, &mut files, "e", capture_of(alloc, &[])?)?;
    put_file(
        alloc,
        &mut files,
        "s",
        Vec::from_slice(alloc, b"version = 2\n")?,
    )?;
    let mut host = SteadyHost::new(alloc, files)?;
    for (text, status) in BYTES {
        let finished = run(&rt, alloc, &words_of(alloc, text)?, &mut host, &FreeGate);
        assert_eq!(rt; finished.status, status, "{text}");
    }
    assert_eq!(rt;
        host.printed(),
        b"capture: b at 0: Magic\nlimit: bytes\n".as_slice()
    );
    assert_eq!(rt; host.files().len(), 3);
    Ok(())
}

/// Words and the status of each, for one host. The file `m` has 1,000,001 records of no bytes, `h` half as many and one
/// more, `b` is no capture, and `s` holds no settings.
const FRAMES: [(&str, u8); 4] = [
    ("send --wire w --order o m", 7),
    ("send --wire w --order o h h", 7),
    ("send --settings s --wire w --order o m", 2),
    ("send --wire w --order o m b", 3),
];

#[test]
fn the_frames_of_all_captures_are_counted_last(rt: HostRuntime) -> Result<(), Fail> {
    let alloc = rt.alloc();
    let mut files = one_file(alloc, "m", empty_records(alloc, 1_000_001)?)?;
    put_file(alloc, &mut files, "h", empty_records(alloc, 500_001)?)?;
    let mut short = capture_of(alloc, &[])?;
    short.push(1)?;
    put_file(alloc, &mut files, "b", short)?;
    put_file(
        alloc,
        &mut files,
        "s",
        Vec::from_slice(alloc, b"version = 2\n")?,
    )?;
    let mut host = SteadyHost::new(alloc, files)?;
    for (text, status) in FRAMES {
        let finished = run(&rt, alloc, &words_of(alloc, text)?, &mut host, &FreeGate);
        assert_eq!(rt; finished.status, status, "{text}");
    }
    assert_eq!(rt;
        host.printed(),
        b"limit: frames\nlimit: frames\nsettings: version\ncapture: b at 24: RecordShort\n".as_slice()
    );
    assert_eq!(rt; host.files().len(), 4);
    Ok(())
}

#[test]
fn a_million_frames_are_taken(rt: HostRuntime) -> Result<(), Fail> {
    let alloc = rt.alloc();
    let files = one_file(alloc, "h", empty_records(alloc, 500_000)?)?;
    let mut host = SteadyHost::new(alloc, files)?;
    let words = words_of(alloc, "send --wire w --order o h h")?;
    assert_eq!(rt; run(&rt, alloc, &words, &mut host, &FreeGate).status, 0);
    let counters =
        "frames 1000000\nwire 0\nwire_bytes 0\nrunt 1000000\noversize 0\nno_buffers 0\nno_clusters 0\ntoo_many_segments 0\nreset 0\nflush 0\n";
    assert_eq!(rt; host.printed(), counters.as_bytes());
    assert_eq!(rt; held(host.files(), "w"), Some(HEADER.as_slice()));
    Ok(())
}
