use super::*;

/// The file `f` of these lengths, and the settings file `s`.
fn two_files(alloc: Global, lengths: &[u8], settings: &str) -> Result<Vec<FileEntry>, Fail> {
    let mut files = one_file(alloc, "f", capture_of(alloc, lengths)?)?;
    files.push(FileEntry {
        name: String::from_str(alloc, "s")?,
        bytes: Items::from_vec(Vec::from_slice(alloc, settings.as_bytes())?),
    })?;
    Ok(files)
}

/// Settings texts, the status and what is printed, if it is not the counters.
const TEXTS: [(&str, u8, &str); 10] = [
    ("", 0, ""),
    ("[adapter]\nmax_segs = 8\ndescriptors = 12\n", 0, ""),
    (
        "[adapter]\nmax_segs = 8\ndescriptors = 11\n",
        2,
        "settings: adapter.descriptors\n",
    ),
    ("[rings]\n", 2, "settings: unknown\n"),
    ("[ring]\nsize = 3\n[rings]\n", 2, "settings: unknown\n"),
    ("version = 7\n", 2, "settings: version\n"),
    ("[ring]\nsize = 2048.0\n", 2, "settings: ring.size\n"),
    (
        "[adapter]\nstart = \"after_senders\"\n",
        2,
        "settings: adapter.start\n",
    ),
    ("[pool]\nseg_bytes = 64\n", 2, "settings: pool.seg_bytes\n"),
    ("[pool]\nclusters = 31\n", 2, "settings: pool.clusters\n"),
];

#[test]
fn a_settings_text_is_read_or_its_first_fault_is_told(rt: HostRuntime) -> Result<(), Fail> {
    let alloc = rt.alloc();
    let words = words_of(alloc, "send --settings=s --wire w --order o f")?;
    for (text, status, line) in TEXTS {
        let mut host = MemoryHost::new(alloc, two_files(alloc, &[60], text)?, Vec::new(alloc))?;
        let finished = run(&rt, alloc, &words, &mut host, &FreeGate);
        assert_eq!(rt; finished.status, status, "{text}");
        assert_eq!(rt; host.printed() == line.as_bytes(), status == 2, "{text}");
        assert_eq!(rt; held(host.files(), "w").is_some(), status == 0, "{text}");
    }
    Ok(())
}

#[test]
fn a_settings_file_that_is_no_text_is_refused(rt: HostRuntime) -> Result<(), Fail> {
    let alloc = rt.alloc();
    let words = words_of(alloc, "send --settings=s --wire w --order o f")?;
    let mut files = two_files(alloc, &[60], "")?;
    if let Some(file) = files.get_mut(1) {
        file.bytes.push(0xff)?;
    }
    let mut host = MemoryHost::new(alloc, files, Vec::new(alloc))?;
    assert_eq!(rt; run(&rt, alloc, &words, &mut host, &FreeGate).status, 2);
    assert_eq!(rt; host.printed(), b"settings: text\n".as_slice());
    Ok(())
}

#[test]
fn a_frame_above_the_settings_largest_is_oversize(rt: HostRuntime) -> Result<(), Fail> {
    let alloc = rt.alloc();
    let words = words_of(alloc, "send --order o --wire w --settings s -- f")?;
    let files = two_files(alloc, &[100, 101], "[frames]\nmax_frame = 100\n")?;
    let mut host = MemoryHost::new(alloc, files, Vec::new(alloc))?;
    let finished = run(&rt, alloc, &words, &mut host, &FreeGate);
    assert_eq!(rt; finished.status, 0);
    assert_eq!(rt;
        held(host.files(), "o"),
        Some(b"accepted 1\n0 0 wire\naway 1\n0 1 oversize\n".as_slice())
    );
    Ok(())
}

/// Words, a call of the host that fails, the status and the line that is printed. The file `b` is no capture, and
/// the settings file `t` no document.
const ORDER: [(&str, u32, u8, &str); 11] = [
    (
        "send --settings s --settings s --wire w --order o f",
        9,
        1,
        "words: refused\n",
    ),
    (
        "send --settings w --wire w --order o f",
        9,
        1,
        "words: names\n",
    ),
    ("send --wire w --order o f -f", 9, 1, "words: refused\n"),
    (
        "send --wire w --order o --in f --host h f",
        9,
        1,
        "words: refused\n",
    ),
    (
        "send --wire w --order o --ring=1 f",
        9,
        1,
        "words: refused\n",
    ),
    (
        "gen --seed 1 --senders 1 --frames 1 --wire w --order o",
        9,
        1,
        "words: refused\n",
    ),
    ("check --wire w --order o f", 9, 1, "words: refused\n"),
    (
        "send --settings s --wire w --order o g",
        0,
        5,
        "host: read s\n",
    ),
    (
        "send --settings s --wire w --order o f",
        1,
        5,
        "host: read f\n",
    ),
    (
        "send --settings r --wire w --order o g",
        9,
        4,
        "absent: r\n",
    ),
    (
        "send --settings t --wire w --order o g",
        9,
        4,
        "absent: g\n",
    ),
];

#[test]
fn the_settings_file_is_read_first_and_looked_at_last(rt: HostRuntime) -> Result<(), Fail> {
    let alloc = rt.alloc();
    for (text, failing, status, line) in ORDER {
        let mut files = two_files(alloc, &[60], "")?;
        files.push(FileEntry {
            name: String::from_str(alloc, "t")?,
            bytes: Items::from_vec(Vec::from_slice(alloc, b"version")?),
        })?;
        let mut host = MemoryHost::new(alloc, files, Vec::from_slice(alloc, &[failing])?)?;
        let finished = run(&rt, alloc, &words_of(alloc, text)?, &mut host, &FreeGate);
        assert_eq!(rt; finished.status, status, "{text}");
        assert_eq!(rt; host.printed(), line.as_bytes(), "{text}");
        assert_eq!(rt; host.files().len(), 3, "{text}");
    }
    Ok(())
}

#[test]
fn the_settings_come_before_the_capture(rt: HostRuntime) -> Result<(), Fail> {
    let alloc = rt.alloc();
    let words = words_of(alloc, "send --settings s --wire w --order o t")?;
    let mut files = two_files(alloc, &[60], "version = 2\n")?;
    files.push(FileEntry {
        name: String::from_str(alloc, "t")?,
        bytes: Items::from_vec(Vec::from_slice(alloc, b"no capture")?),
    })?;
    let mut host = MemoryHost::new(alloc, files, Vec::new(alloc))?;
    assert_eq!(rt; run(&rt, alloc, &words, &mut host, &FreeGate).status, 2);
    assert_eq!(rt; host.printed(), b"settings: version\n".as_slice());
    let mut long = MemoryHost::new(
        alloc,
        one_file(alloc, "s", vec![in alloc; b'#'; 65_537]?)?,
        Vec::new(alloc),
    )?;
    assert_eq!(rt; run(&rt, alloc, &words, &mut long, &FreeGate).status, 7);
    assert_eq!(rt; long.printed(), b"limit: s\n".as_slice());
    Ok(())
}

#[test]
fn a_name_behind_two_dashes_may_begin_with_a_dash(rt: HostRuntime) -> Result<(), Fail> {
    let alloc = rt.alloc();
    let words = words_of(alloc, "send --wire w --order o -- -x")?;
    let files = one_file(alloc, "-x", capture_of(alloc, &[60])?)?;
    let mut host = MemoryHost::new(alloc, files, Vec::new(alloc))?;
    assert_eq!(rt; run(&rt, alloc, &words, &mut host, &FreeGate).status, 0);
    assert_eq!(rt;
        held(host.files(), "w"),
        Some(capture_of(alloc, &[60])?.as_slice())
    );
    Ok(())
}
