ghost use Rattle.std.specs.Prelude.{◌≡◌, [], ◌∷◌, None, IfOk};
ghost use Rattle.std.specs.String.{string_bytes};
ghost use Rattle.ifl_engine.specs.Read.{names_of};
ghost use Rattle.ifl_engine.specs.Words.{no_names};
ghost use Rattle.ifl_engine.specs.FaultLines.{line_for, word_line, setting_line, file_number, name_read as name_of_read};
ghost use Rattle.ifl_engine.specs.Seen.{seen};
ghost use Rattle.ifl_engine.specs.Steps.{IsToldBy, IsTold};

use crate::stop::{Input, SettingsWhy, Stop, WordsWhy, status};
use crate::words::{file_name, settings_name};
use ifl_conf::SendWords;
use ifl_outside::{Host, HostError};
use std::alloc::{AllocError, Global};

/// The fault line of words that are refused.
fn word_line(why: WordsWhy) -> &'static str
    ensures { result.now ≡ word_line why }
{
    match why {
        WordsWhy::NoCommand => "words: no command\n",
        WordsWhy::UnknownCommand => "words: unknown command\n",
        WordsWhy::Refused => "words: refused\n",
        WordsWhy::Names => "words: names\n",
    }
}

/// The fault line of a settings file that is refused.
fn setting_line(alloc: Global, why: SettingsWhy) -> Result<String, AllocError>
    ensures { IfOk result (λ t. string_bytes t ≡ setting_line why) }
{
    match why {
        SettingsWhy::Text => String::from_str(alloc, "settings: text\n"),
        SettingsWhy::Unknown => String::from_str(alloc, "settings: unknown\n"),
        SettingsWhy::Key(key) => format!(in alloc; "settings: {key}\n"),
    }
}

/// The name of a file that is read.
fn name_read<'a>(which: Input, settings: &'a str, file: &'a str) -> &'a str
    ensures { result.now ≡ name_of_read settings.now file.now which }
{
    match which {
        Input::Settings => settings,
        Input::File(_) => file,
    }
}

/// The number of the FILE that a stop is about, or 0 where it is about none.
fn file_number(stop: Stop) -> u32
    ensures { result ≡ file_number stop }
{
    match stop {
        Stop::ReadFailed(Input::File(number))
        | Stop::Absent(Input::File(number))
        | Stop::TooLong(Input::File(number)) => number,
        Stop::Capture { file, .. } => file,
        _ => 0,
    }
}

/// The fault line; `file` is the name of the FILE that the stop is about.
fn fault_line(
    alloc: Global,
    settings: &str,
    wire: &str,
    order: &str,
    file: &str,
    stop: Stop,
) -> Result<String, AllocError>
    ensures { IfOk result (λ t. string_bytes t ≡ line_for (record { settings = settings.now; wire = wire.now; order = order.now; file = file.now }) stop) }
{
    match stop {
        Stop::Words(why) => String::from_str(alloc, word_line(why)),
        Stop::TooManyFiles => String::from_str(alloc, "limit: files\n"),
        Stop::Absent(which) => {
            let name = name_read(which, settings, file);
            format!(in alloc; "absent: {name}\n")
        }
        Stop::TooLong(which) => {
            let name = name_read(which, settings, file);
            format!(in alloc; "limit: {name}\n")
        }
        Stop::TooManyBytes => String::from_str(alloc, "limit: bytes\n"),
        Stop::Settings(why) => setting_line(alloc, why),
        Stop::Capture { at, why, .. } => {
            let why = why.name();
            format!(in alloc; "capture: {file} at {at}: {why}\n")
        }
        Stop::TooManyFrames => String::from_str(alloc, "limit: frames\n"),
        Stop::ReadFailed(which) => {
            let name = name_read(which, settings, file);
            format!(in alloc; "host: read {name}\n")
        }
        Stop::WireFailed => format!(in alloc; "host: write {wire}\n"),
        Stop::OrderFailed => format!(in alloc; "host: write {order}\n"),
        Stop::PrintFailed => String::from_str(alloc, "host: print\n"),
        Stop::Memory => String::from_str(alloc, "memory\n"),
    }
}

/// Prints the fault line, and answers the status.
fn tell_line<H: Host>(
    alloc: Global,
    settings: &str,
    wire: &str,
    order: &str,
    file: &str,
    stop: Stop,
    host: &mut H,
) -> u8
    ensures { IsToldBy (line_for (record { settings = settings.now; wire = wire.now; order = order.now; file = file.now }) stop) stop
        (seen H.faults H.files H.printed host.old) (seen H.faults H.files H.printed host.new) result }
{
    match fault_line(alloc, settings, wire, order, file, stop) {
        Err(_) => 6,
        Ok(line) => match host.print(alloc, line.as_bytes()) {
            Ok(()) => status(stop),
            Err(HostError::Failed) => status(stop),
            Err(HostError::Memory) => 6,
        },
    }
}

/// The same, where no name may be told.
pub fn tell<H: Host>(alloc: Global, stop: Stop, host: &mut H) -> u8
    ensures { IsTold no_names stop
        (seen H.faults H.files H.printed host.old) (seen H.faults H.files H.printed host.new) result }
{
    tell_line(alloc, "", "", "", "", stop, host)
}

/// The same, where only the name of one FILE may be told.
pub fn tell_file<H: Host>(alloc: Global, file: &str, stop: Stop, host: &mut H) -> u8
    ensures { IsTold (record no_names { files = file.now ∷ [] }) stop
        (seen H.faults H.files H.printed host.old) (seen H.faults H.files H.printed host.new) result }
{
    let file = if file_number(stop) == 0 { file } else { "" };
    tell_line(alloc, "", "", "", file, stop, host)
}

/// The same, for a run of `send`.
pub fn tell_named<H: Host>(alloc: Global, names: &SendWords, stop: Stop, host: &mut H) -> u8
    ensures { IsTold (names_of names.now) stop
        (seen H.faults H.files H.printed host.old) (seen H.faults H.files H.printed host.new) result }
{
    tell_line(
        alloc,
        settings_name(names),
        names.wire.as_str(),
        names.order.as_str(),
        file_name(names, file_number(stop)),
        stop,
        host,
    )
}
