use super::*;
use crate::keys::KEYS;
use std::alloc::Global;
use std::test::*;

/// What is answered to a settings file: `ok`, or its fault as it is printed.
fn settings_answer(alloc: Global, bytes: &[u8]) -> Result<String, Fail> {
    match read_settings(alloc, bytes) {
        Ok(_) => Ok(String::from_str(alloc, "ok")?),
        Err(fault) => Ok(format!(in alloc; "{fault}")?),
    }
}

/// A settings file whose lines are written behind one another, with a stroke between them.
fn lines_of(alloc: Global, text: &str) -> Result<String, Fail> {
    let mut lines = String::new(alloc);
    for line in text.split('/') {
        lines.push_str(line)?;
        lines.push('\n')?;
    }
    Ok(lines)
}

/// Settings files, and behind an arrow what is answered to each.
const FIRST_FAULTS: &str = " => ok
[ring] => ok
[adapter]/max_segs = 8/descriptors = 12 => ok
[ring]/size = 4/size = 4 => text
[ring => text
[rings] => unknown
[ring]/size = 3/[rings] => unknown
[ring]/sizes = 4 => unknown
ring = 4 => unknown
[[ring]] => unknown
[tag] => unknown
version = 7 => version
[version] => version
version = 7/[ring]/size = 3 => version
[ring]/size = 2048.0 => ring.size
[ring]/abdicate = 0 => ring.abdicate
[adapter]/kind = \"Writeback\" => adapter.kind
[rx]/burst = 0/[pool]/clusters = 0 => pool.clusters
[adapter]/max_segs = 8/descriptors = 11 => adapter.descriptors
[adapter]/max_segs = 8/descriptors = 11/[rx]/burst = 0 => rx.burst
[adapter]/start = \"after_senders\" => adapter.start
[pool]/seg_bytes = 64 => pool.seg_bytes
[pool]/clusters = 31 => pool.clusters
[pool]/clusters = 32 => ok";

/// The same, of each choice that a key has, and of settings that go together.
const CHOICES: &str = "ring.abdicate = true => ok
adapter.kind = \"legacy\" => ok
adapter.kind = \"generation\" => ok
adapter.kind = \"writeback\"/adapter.start = \"at_once\"/adapter.hang_after = 0 => ok
adapter.hang_after = 1 => ok
adapter.link_down_after = 1 => ok
adapter.start = \"after_senders\"/frames.policy = \"drop\" => ok
adapter.start = \"after_senders\"/frames.policy = \"retry\" => adapter.start
frames.policy = \"drop\"/pool.clusters = 0 => pool.clusters
stop.mode = \"flush\" => ok";

#[test]
fn the_first_fault_of_a_settings_file_is_told(rt: HostRuntime) -> Result<(), Fail> {
    let alloc = rt.alloc();
    assert_eq!(rt; settings_answer(alloc, &[0xff])?.as_str(), "text");
    for row in FIRST_FAULTS.lines().chain(CHOICES.lines()) {
        let (text, answer) = row.split_once(" => ").unwrap_or(("", "no answer"));
        let told = settings_answer(alloc, lines_of(alloc, text)?.as_bytes())?;
        assert_eq!(rt; told.as_str(), answer, "{text}");
    }
    Ok(())
}

/// The keys of numbers, each with the number below its range and the one above it.
const BESIDE_RANGES: &str = "ring.size 3 65537
ring.budget -1 65536
adapter.descriptors 7 32769
adapter.max_segs 0 65
adapter.doorbell_every 0 33
adapter.turn_frames 0 65536
adapter.hang_after -1 1000001
adapter.link_down_after -1 1000001
adapter.link_down_turns 0 65536
frames.max_frame 13 65537
pool.clusters 0 65537
pool.seg_bytes 63 2049
stop.after -1 1000001
rx.descriptors 7 32769
rx.clusters 7 65537
rx.burst 0 65536
rx.copy_break -1 2049";

/// What is answered to a settings file that sets this key alone.
fn answer_to_one(alloc: Global, key: &str, n: &str) -> Result<String, Fail> {
    let mut text = String::from_str(alloc, key)?;
    text.push_str(" = ")?;
    text.push_str(n)?;
    settings_answer(alloc, text.as_bytes())
}

#[test]
fn a_number_beside_its_range_is_told_with_its_key(rt: HostRuntime) -> Result<(), Fail> {
    let alloc = rt.alloc();
    for row in BESIDE_RANGES.lines() {
        let (key, numbers) = row.split_once(' ').unwrap_or(("", ""));
        for n in numbers.split(' ') {
            assert_eq!(rt; answer_to_one(alloc, key, n)?.as_str(), key, "{n}");
        }
    }
    Ok(())
}

/// The settings as text: the numbers in the order of their keys, and then the flag and the choices.
fn shown(alloc: Global, s: &Settings) -> Result<String, Fail> {
    let numbers = [
        s.version(),
        s.ring_size(),
        s.ring_budget(),
        s.adapter_descriptors(),
        s.adapter_max_segs(),
        s.adapter_doorbell_every(),
        s.adapter_turn_frames(),
        s.adapter_hang_after(),
        s.adapter_link_down_after(),
        s.adapter_link_down_turns(),
        s.frames_max_frame(),
        s.pool_clusters(),
        s.pool_seg_bytes(),
        s.stop_after(),
        s.rx_descriptors(),
        s.rx_clusters(),
        s.rx_burst(),
        s.rx_copy_break(),
    ];
    let abdicate = s.ring_abdicate();
    let kind = s.adapter_kind();
    let start = s.adapter_start();
    let policy = s.frames_policy();
    let mode = s.stop_mode();
    Ok(format!(in alloc; "{numbers:?} {abdicate} {kind:?} {start:?} {policy:?} {mode:?}")?)
}

const STANDARD: &str =
    "[1, 2048, 32, 1024, 32, 4, 64, 0, 0, 16, 65536, 4096, 2048, 0, 512, 2048, 64, 128] \
    false Writeback AtOnce Retry Drain";

const LEAST: &str =
    "version = 1/ring.size = 4/ring.budget = 0/ring.abdicate = false/[adapter]/descriptors = 8/\
    max_segs = 1/doorbell_every = 1/turn_frames = 1/link_down_turns = 1/[frames]/max_frame = 14/policy = \"retry\"/\
    [pool]/clusters = 1/seg_bytes = 64/[stop]/mode = \"drain\"/after = 0/[rx]/descriptors = 8/clusters = 8/burst = 1/\
    copy_break = 0";

const MOST: &str =
    "ring.size = 65_536/ring.budget = 65_535/[adapter]/descriptors = 32_768/max_segs = 64/\
    doorbell_every = 32/turn_frames = 65_535/link_down_turns = 65_535/[frames]/max_frame = 65_536/\
    [pool]/clusters = 65_536/seg_bytes = 2_048/[stop]/after = 1_000_000/[rx]/descriptors = 32_768/\
    clusters = 65_536/burst = 65_535/copy_break = 2_048";

#[test]
fn a_settings_file_sets_what_it_says(rt: HostRuntime) -> Result<(), Fail> {
    let alloc = rt.alloc();
    let standard = Settings::standard();
    settings_are_valid(&standard);
    let least = read_settings(alloc, lines_of(alloc, LEAST)?.as_bytes())?;
    let most = read_settings(alloc, lines_of(alloc, MOST)?.as_bytes())?;
    assert_eq!(rt; shown(alloc, &standard)?.as_str(), STANDARD);
    assert_eq!(rt;
        shown(alloc, &read_settings(alloc, b"")?)?.as_str(),
        STANDARD
    );
    assert_eq!(rt;
        shown(alloc, &least)?.as_str(),
        "[1, 4, 0, 8, 1, 1, 1, 0, 0, 1, 14, 1, 64, 0, 8, 8, 1, 0] false Writeback AtOnce Retry Drain"
    );
    assert_eq!(rt;
        shown(alloc, &most)?.as_str(),
        "[1, 65536, 65535, 32768, 64, 32, 65535, 0, 0, 65535, 65536, 65536, 2048, 1000000, 32768, 65536, 65535, 2048] \
            false Writeback AtOnce Retry Drain"
    );
    Ok(())
}

#[test]
fn a_key_is_printed_with_its_table(rt: HostRuntime) -> Result<(), Fail> {
    let alloc = rt.alloc();
    let mut printed = String::new(alloc);
    for key in KEYS {
        write!(printed, "{key} ")?;
    }
    assert_eq!(rt;
        printed.as_str(),
        "version ring.size ring.budget ring.abdicate adapter.kind adapter.descriptors adapter.max_segs \
            adapter.doorbell_every adapter.turn_frames adapter.start adapter.hang_after adapter.link_down_after \
            adapter.link_down_turns frames.max_frame frames.policy pool.clusters pool.seg_bytes stop.mode stop.after \
            rx.descriptors rx.clusters rx.burst rx.copy_break "
    );
    Ok(())
}

/// The words between single spaces; none in an empty text.
fn words_of(alloc: Global, text: &str) -> Result<Vec<String>, Fail> {
    let mut words = Vec::new(alloc);
    if text.is_empty() {
        return Ok(words);
    }
    for word in text.split(' ') {
        words.push(String::from_str(alloc, word)?)?;
    }
    Ok(words)
}

/// What is answered to words: the command, or the fault as it is printed.
fn words_answer(alloc: Global, text: &str) -> Result<String, Fail> {
    let command = match read_words(alloc, &words_of(alloc, text)?) {
        Ok(Command::Send(_)) => "send",
        Ok(Command::Gen(_)) => "gen",
        Ok(Command::Trace { file: _ }) => "trace",
        Ok(Command::Check(_)) => "check",
        Err(fault) => return Ok(format!(in alloc; "{fault}")?),
    };
    Ok(String::from_str(alloc, command)?)
}

/// Words, and behind an arrow what is answered to them.
const WORDS: &str = " => no command
sent --wire w --order o f => unknown command
--help => unknown command
send --help => refused
send --wire w --order o f => send
send --order=o --wire=w f => send
send --settings s --wire w --order o f => send
send --settings s --settings s --wire w --order o f => refused
send --wire w --order o => refused
send --wire w f => refused
send --wire= --order o f => refused
send --wire  --order o f => refused
send --wire -w --order o f => refused
send --wire=-w --order o f => send
send --wire - --order o f => send
send --wire w --order o - => send
send --wire w --order o -- -x => send
send --wire w --order o -- -- => send
send --wire w --order o -- => refused
send --wire w --order o --  => refused
send --wire w --order o -x => refused
send --wire w f --order o => refused
send -w w --order o f => refused
send --seed 1 --wire w --order o f => refused
send --wire w --order w f => names
send --wire w --order f f => names
send --settings w --wire w --order o f => names
send --settings f --wire w --order o f => send
trace t => trace
trace -- -t => trace
trace => refused
trace t u => refused
trace --wire w t => refused
send --wire w --order o f g => send
send --wire w --order o f f => send
send --wire w --order w f g => names
send --wire w --order g f g => names
send --in i --host h --wire w --order o f => refused
send --ring --wire w --order o f => send
send --ring=1 --wire w --order o f => refused
gen --seed 1 --senders 1 --frames 2 --wire w --order o => refused
check --wire w --order o f => refused";

#[test]
fn words_are_read_or_refused(rt: HostRuntime) -> Result<(), Fail> {
    let alloc = rt.alloc();
    for row in WORDS.lines() {
        let (text, answer) = row.split_once(" => ").unwrap_or(("", "no answer"));
        assert_eq!(rt; words_answer(alloc, text)?.as_str(), answer, "{text}");
    }
    Ok(())
}

#[test]
fn a_command_has_what_was_written(rt: HostRuntime) -> Result<(), Fail> {
    let alloc = rt.alloc();
    front_is_spelled();
    files_are_spelled();
    let words = words_of(alloc, "send --settings=s --order o=1 --wire=w=2 -- -f")?;
    let Command::Send(send) = read_words(alloc, &words)? else {
        return Err(Fail::new("another command"));
    };
    let settings = send.settings.unwrap_or(String::new(alloc));
    assert_eq!(rt; settings.as_str(), "s");
    assert_eq!(rt; send.wire.as_str(), "w=2");
    assert_eq!(rt; send.order.as_str(), "o=1");
    assert_eq!(rt; send.files[0].as_str(), "-f");
    Ok(())
}
