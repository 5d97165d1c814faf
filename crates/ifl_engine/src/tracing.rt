ghost use Rattle.std.specs.Prelude.{◌≡◌, ◌≢◌, ◌≤◌, ◌⊎◌, Ok, None, codes, length, IfOk, map};
ghost use Rattle.ifl_outside.specs.Causes.{Rose};
ghost use Rattle.std.specs.String.{string_bytes};
ghost use Rattle.ifl_ringcore.specs.Texts.{fault_line};
ghost use Rattle.ifl_engine.specs.Words.{trace, asked as asked_by_words};
ghost use Rattle.ifl_engine.specs.Tracing.{IsReplay};
ghost use Rattle.ifl_engine.specs.Account.{ForAccount};
ghost use Rattle.ifl_engine.specs.Wanted.{tracing, only_trace, work_of, wanted_by};
ghost use Rattle.ifl_engine.specs.FaultLines.{names_asked, names_or_none};
ghost use Rattle.ifl_engine.specs.Seen.{seen};
ghost use Rattle.ifl_engine.specs.Answer.{IsAnswer, IsByWords};

use crate::reading::read_file;
use crate::stop::{Input, Stop, WordsWhy};
use crate::telling::{tell, tell_file};
use crate::words::asked;
use ifl_base::{Items, NoMemory};
use ifl_conf::Command;
use ifl_outside::{Host, HostError};
use ifl_ringcore::{ScheduleFault, Trace, read_schedule, replay};
use std::alloc::Global;

/// The most bytes of a schedule's file.
const SCHEDULE_MAX: u64 = 1_048_576;

/// What a replay prints, and its status: 0 where every event was legal, else 9.
#[derive(Drop)]
struct Replay {
    text: Items<u8>,
    status: u8,
}

/// The line that names the first bad line of a schedule.
fn bad_line(alloc: Global, line: u32) -> Result<String, NoMemory>
    ensures { IfOk result (λ t. string_bytes t ≡ fault_line line (codes "Line")) }
{
    Ok(format!(in alloc; "trace: line {line}: Line\n")?)
}

/// The replay of a schedule's file.
fn replay_of(alloc: Global, file: &[u8]) -> Result<Replay, NoMemory>
    requires { length file.now ≤ 1048576 }
    ensures replay { IfOk result (λ r. IsReplay file.now r.text r.status) }
    ensures status { IfOk result (λ r. (r.status ≡ 0) ⊎ (r.status ≡ 9)) }
{
    match read_schedule(alloc, file) {
        Ok(schedule) => {
            let Trace { text, is_legal } = replay(alloc, &schedule)?;
            let status = if is_legal { 0 } else { 9 };
            Ok(Replay { text, status })
        }
        Err(ScheduleFault::Line(line)) => {
            let text = Items::from_vec(bad_line(alloc, line)?.into_bytes());
            Ok(Replay { text, status: 9 })
        }
        Err(ScheduleFault::Memory) => Err(NoMemory),
    }
}

/// Replays a schedule and prints all of it at once.
fn print_replay<H: Host>(alloc: Global, file: &str, bytes: &[u8], host: &mut H) -> u8
    requires { length bytes.now ≤ 1048576 }
    ensures by_words { result ≢ 1 }
    ensures answer { IsAnswer (names_asked (trace file.now)) (Ok (tracing bytes.now))
        (seen H.faults H.files H.printed host.old) (seen H.faults H.files H.printed host.new) (record { status = result; report = None }) }
{
    match replay_of(alloc, bytes) {
        Err(NoMemory) => tell_file(alloc, file, Stop::Memory, host),
        Ok(Replay { text, status }) => match host.print(alloc, text.as_slice()) {
            Ok(()) => status,
            Err(HostError::Failed) if status == 0 => tell_file(
                alloc,
                file,
                Stop::PrintFailed,
                host,
            ),
            Err(HostError::Failed) => status,
            Err(HostError::Memory) => tell_file(alloc, file, Stop::Memory, host),
        },
    }
}

/// The command `trace`: reads a schedule and prints its replay. No file is written.
pub fn trace<H: Host>(alloc: Global, file: &str, host: &mut H) -> u8
    ensures by_words { result ≢ 1 }
    ensures answer { ForAccount (H.files host.old) (Rose (H.faults host.old) (H.faults host.new)) (λ source.
        IsAnswer (names_asked (trace file.now)) (work_of (trace file.now) source)
        (seen H.faults H.files H.printed host.old) (seen H.faults H.files H.printed host.new) (record { status = result; report = None })) }
{
    match read_file(alloc, Input::File(0), file, SCHEDULE_MAX, host) {
        Ok(bytes) => print_replay(alloc, file, &bytes, host),
        Err(stop) => tell_file(alloc, file, stop, host),
    }
}

/// The command `trace`, where the words ask for it.
fn answer_trace<H: Host>(alloc: Global, words: &[String], host: &mut H) -> u8
    ensures by_words { IsByWords (only_trace (asked_by_words (map string_bytes words.now))) result }
    ensures answer { ForAccount (H.files host.old) (Rose (H.faults host.old) (H.faults host.new)) (λ source.
        IsAnswer (names_or_none (only_trace (asked_by_words (map string_bytes words.now)))) (wanted_by (only_trace (asked_by_words (map string_bytes words.now))) source)
        (seen H.faults H.files H.printed host.old) (seen H.faults H.files H.printed host.new) (record { status = result; report = None })) }
{
    match asked(alloc, words) {
        Ok(Command::Trace { file }) => trace(alloc, file.as_str(), host),
        Ok(Command::Send(_)) => tell(alloc, Stop::Words(WordsWhy::Refused), host),
        Ok(Command::Gen(_)) => tell(alloc, Stop::Words(WordsWhy::Refused), host),
        Ok(Command::Check(_)) => tell(alloc, Stop::Words(WordsWhy::Refused), host),
        Err(stop) => tell(alloc, stop, host),
    }
}

/// The command `trace` alone, which returns: the words `trace FILE`, and no others.
///
/// It answers the exit status. The replay is printed by one call; no file is written.
pub fn run_trace<H: Host>(alloc: Global, words: &[String], host: &mut H) -> u8
    // Status 1 comes exactly where the words are not those of `trace`.
    ensures words { IsByWords (only_trace (asked_by_words (map string_bytes words.now))) result }

    // There is one account of what the schedule's file was found to be, and by it the status has its cause, and what was
    // printed is the replay, or a fault line.
    ensures answer { ForAccount (H.files host.old) (Rose (H.faults host.old) (H.faults host.new)) (λ source.
        IsAnswer (names_or_none (only_trace (asked_by_words (map string_bytes words.now)))) (wanted_by (only_trace (asked_by_words (map string_bytes words.now))) source)
        (seen H.faults H.files H.printed host.old) (seen H.faults H.files H.printed host.new) (record { status = result; report = None })) }

    // Status 5 comes only where the host has failed in this call.
    ensures failed { result ≡ 5 → Rose (H.faults host.old) (H.faults host.new) }

    // No file is written.
    ensures untouched { H.files host.new ≡ H.files host.old }
{
    answer_trace(alloc, words, host)
}
