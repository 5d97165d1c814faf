//! The program: reads its words, makes the real host and the free gate, and ends with the status of `run`.
//!
//! It stands on `ifl_engine`, whose `run` carries every claim about it.
#![tactic(auto)]

ghost use Rattle.std.specs.Prelude.{◌≡◌, ◌≢◌, map};
ghost use Rattle.std.specs.String.{string_bytes};
ghost use Rattle.ifl_engine.specs.Words.{asked};
ghost use Rattle.ifl_engine.specs.Seen.{seen};
ghost use Rattle.ifl_engine.specs.Answer.{IsByWords};
ghost use Rattle.iflib_run.specs.Ending.{EndsWith};

use ifl_engine::run;
use ifl_outside::{FreeGate, Host, RealHost};
use std::alloc::Global;
use std::io::ErrorKind;
use std::process::ExitCode;
use std::sync::Wait;
use std::thread::Threads;
use std::{env, io};

/// The words behind the program's name.
fn read_arguments(alloc: Global, rt: &HostRuntime) -> io::Result<Vec<String>> {
    let mut words = Vec::new(alloc);
    for word in env::args(rt)?.skip(1) {
        words.push(word)?;
    }
    Ok(words)
}

/// What ends a program whose words could not be read: one of them is not UTF-8, or there was no memory.
fn refuse<H: Host>(alloc: Global, host: &mut H, kind: ErrorKind) -> u8
    ensures memory { kind ≡ ErrorKind.OutOfMemory → result ≡ 6 }
    ensures words { kind ≢ ErrorKind.OutOfMemory → result ≡ 1 }
    ensures files { H.files host.new ≡ H.files host.old }
{
    let (line, status) = match kind {
        ErrorKind::OutOfMemory => (b"memory\n".as_slice(), 6),
        _ => (b"words: refused\n".as_slice(), 1),
    };
    let _ = host.print(alloc, line);
    status
}

/// What ends a program whose words could be read: the status of the run that they ask for.
fn exit_status<R: Threads + Wait + Sync, H: Host>(
    rt: &R,
    alloc: Global,
    words: &[String],
    host: &mut H,
) -> u8
    ensures words { IsByWords (asked (map string_bytes words.now)) result }
    ensures ends { EndsWith (map string_bytes words.now)
        (seen H.faults H.files H.printed host.old) (seen H.faults H.files H.printed host.new) result }
{
    run(rt, alloc, words, host, &FreeGate).status
}

fn main(rt: HostRuntime) -> ExitCode {
    let alloc = rt.alloc();
    let mut host = RealHost::new(&rt);
    let status = match read_arguments(alloc, &rt) {
        Ok(words) => exit_status(&rt, alloc, &words, &mut host),
        Err(e) => refuse(alloc, &mut host, e.kind()),
    };
    ExitCode::from(status)
}
