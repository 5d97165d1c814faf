ghost use Rattle.std.specs.Prelude.{◌≡◌, ◌≢◌, ◌<◌, [], Ok, None, length, map};
ghost use Rattle.std.specs.String.{string_bytes};
ghost use Rattle.ifl_outside.specs.Causes.{Rose};
ghost use Rattle.ifl_engine.specs.Words.{asked as asked_by_words, no_names, send};
ghost use Rattle.ifl_engine.specs.Read.{names_of};
ghost use Rattle.ifl_engine.specs.Account.{ForAccount};
ghost use Rattle.ifl_engine.specs.Wanted.{sending, wanted, work_of};
ghost use Rattle.ifl_engine.specs.FaultLines.{names_in};
ghost use Rattle.ifl_engine.specs.Seen.{seen};
ghost use Rattle.ifl_engine.specs.Answer.{IsAnswer, IsByWords, IsRefusal};
ghost use Rattle.ifl_engine.specs.Loaded.{chosen, each_frames};
ghost use Rattle.ifl_engine.specs.Steps.{AreSmall, IsTold};

use crate::gathering::{Load, gathered};
use crate::report::Finished;
use crate::sending::report_of;
use crate::stop::{Stop, WordsWhy};
use crate::telling::{tell, tell_named};
use crate::tracing::trace;
use crate::words::asked;
use crate::writing::put_out;
use ifl_base::NoMemory;
use ifl_conf::{Command, SendWords};
use ifl_outside::{Gate, Host};
use std::alloc::Global;
use std::sync::Wait;
use std::thread::Threads;

/// The run over the captures that were read.
fn work<R: Threads + Wait + Sync, H: Host, G: Gate>(
    rt: &R,
    alloc: Global,
    names: &SendWords,
    load: Load,
    host: &mut H,
    gate: &G,
) -> Finished
    requires small { AreSmall (each_frames load.captures) }
    requires apart { string_bytes names.now.wire ≢ string_bytes names.now.order }
    ensures by_words { result.status ≢ 1 }
    ensures answer { IsAnswer (names_of names.now) (Ok (sending (names_of names.now) (chosen load.settings) (each_frames load.captures)))
        (seen H.faults H.files H.printed host.old) (seen H.faults H.files H.printed host.new) result }
{
    let Load { settings, captures } = load;
    match report_of(rt, alloc, &settings, captures, gate) {
        Err(NoMemory) => {
            let status = tell_named(alloc, names, Stop::Memory, host);
            Finished {
                status,
                report: None,
            }
        }
        Ok(report) => match put_out(alloc, names, &report, host) {
            Ok(()) => Finished {
                status: 0,
                report: Some(report),
            },
            Err(stop) => {
                let status = tell_named(alloc, names, stop, host);
                Finished {
                    status,
                    report: Some(report),
                }
            }
        },
    }
}

/// The command `send`: reads, runs and writes.
fn send<R: Threads + Wait + Sync, H: Host, G: Gate>(
    rt: &R,
    alloc: Global,
    names: &SendWords,
    host: &mut H,
    gate: &G,
) -> Finished
    requires some { 0 < length names.now.files.items }
    requires apart { string_bytes names.now.wire ≢ string_bytes names.now.order }
    ensures by_words { result.status ≢ 1 }
    ensures answer { ForAccount (H.files host.old) (Rose (H.faults host.old) (H.faults host.new)) (λ source.
        IsAnswer (names_of names.now) (work_of (send (names_of names.now)) source)
        (seen H.faults H.files H.printed host.old) (seen H.faults H.files H.printed host.new) result) }
{
    match gathered(alloc, names, host) {
        Ok(load) => work(rt, alloc, names, load, host, gate),
        Err(stop) => {
            let status = tell_named(alloc, names, stop, host);
            Finished {
                status,
                report: None,
            }
        }
    }
}

/// The end of a run whose words are refused, or for whose words there was no memory.
fn refuse<H: Host>(alloc: Global, stop: Stop, host: &mut H) -> Finished
    ensures report { result.report ≡ None }
    ensures told { IsTold no_names stop
        (seen H.faults H.files H.printed host.old) (seen H.faults H.files H.printed host.new) result.status }
{
    let status = tell(alloc, stop, host);
    Finished {
        status,
        report: None,
    }
}

/// The command that the words ask for.
fn answer<R: Threads + Wait + Sync, H: Host, G: Gate>(
    rt: &R,
    alloc: Global,
    words: &[String],
    host: &mut H,
    gate: &G,
) -> Finished
    ensures words { IsByWords (asked_by_words (map string_bytes words.now)) result.status }
    ensures answer { ForAccount (H.files host.old) (Rose (H.faults host.old) (H.faults host.new)) (λ source.
        IsAnswer (names_in (map string_bytes words.now)) (wanted (map string_bytes words.now) source)
        (seen H.faults H.files H.printed host.old) (seen H.faults H.files H.printed host.new) result) }
{
    match asked(alloc, words) {
        Ok(Command::Send(names)) => send(rt, alloc, &names, host, gate),
        Ok(Command::Trace { file }) => {
            let status = trace(alloc, file.as_str(), host);
            Finished {
                status,
                report: None,
            }
        }
        Ok(Command::Gen(_)) => refuse(alloc, Stop::Words(WordsWhy::Refused), host),
        Ok(Command::Check(_)) => refuse(alloc, Stop::Words(WordsWhy::Refused), host),
        Err(stop) => refuse(alloc, stop, host),
    }
}

/// The top call: all that the program does.
///
/// `words` are the words behind the program's name. The host is read, written and printed to; the gate is
/// where a test may hold a thread. What is printed is the counters at status 0, and else one fault line.
pub fn run<R: Threads + Wait + Sync, H: Host, G: Gate>(
    rt: &R,
    alloc: Global,
    words: &[String],
    host: &mut H,
    gate: &G,
) -> Finished
    // Status 1 comes exactly where the words are refused.
    ensures words { IsByWords (asked_by_words (map string_bytes words.now)) result.status }

    // There is one account of what the host's files were found to be, and by it each status has its cause, a report is
    // good for the captures, and what stands in the files and what was printed is the report's, a replay, or a fault line.
    ensures answer { ForAccount (H.files host.old) (Rose (H.faults host.old) (H.faults host.new)) (λ source.
        IsAnswer (names_in (map string_bytes words.now)) (wanted (map string_bytes words.now) source)
        (seen H.faults H.files H.printed host.old) (seen H.faults H.files H.printed host.new) result) }

    // Status 5 comes only where the host has failed in this call.
    ensures failed { result.status ≡ 5 → Rose (H.faults host.old) (H.faults host.new) }

    // After a refusal there is no report, and no file was written, whatever the host tells.
    ensures refused { IsRefusal result.status → (result.report ≡ None) × (H.files host.new ≡ H.files host.old) }
{
    answer(rt, alloc, words, host, gate)
}
