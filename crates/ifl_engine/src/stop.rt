ghost use Rattle.std.specs.Prelude.{◌≡◌};
ghost use Rattle.ifl_engine.specs.Status.{status_of};
ghost use Rattle.ifl_engine.specs.Words.{stop_by_words};
ghost use Rattle.ifl_engine.specs.Loading.{stop_by_settings};

use ifl_conf::{KeyName, SettingFault, WordFault};
use ifl_pcap::CaptureWhy;

/// A file that a run reads, in the order in which they are read.
#[derive(Clone, Copy, Debug, PartialEq, Eq)]
pub enum Input {
    /// The settings file.
    Settings,
    /// The FILE of this number, counted from 0: a capture, or the schedule.
    File(u32),
}

/// Why words are refused.
#[derive(Clone, Copy, Debug, PartialEq, Eq)]
pub enum WordsWhy {
    /// There is no word.
    NoCommand,
    /// The first word is no command.
    UnknownCommand,
    /// The words are not of the grammar, or ask for what the program does not do yet.
    Refused,
    /// A file that is to be written has the name of another.
    Names,
}

/// Why a settings file is refused.
#[derive(Clone, Copy, Debug, PartialEq, Eq)]
pub enum SettingsWhy {
    /// It is no document.
    Text,
    /// It has a name that no key has.
    Unknown,
    /// The value of this key is at fault.
    Key(KeyName),
}

/// What stops a run, in the order of refusals.
#[derive(Clone, Copy, Debug, PartialEq, Eq)]
pub enum Stop {
    /// The words are refused.
    Words(WordsWhy),
    /// There are more than 16 FILE words.
    TooManyFiles,
    /// The host failed to read this file.
    ReadFailed(Input),
    /// There is no such file.
    Absent(Input),
    /// The file is longer than its limit.
    TooLong(Input),
    /// The captures' files have more than 134,217,728 bytes together.
    TooManyBytes,
    /// The settings file is refused.
    Settings(SettingsWhy),
    /// The FILE of this number is no capture: the first place that is at fault, in bytes from 0, and what is wrong there.
    Capture { file: u32, at: u64, why: CaptureWhy },
    /// The captures have more than 1,000,000 frames together.
    TooManyFrames,
    /// The host failed to write the wire file.
    WireFailed,
    /// The host failed to write the order file.
    OrderFailed,
    /// The host failed to print the counters, or a replay.
    PrintFailed,
    /// There was no memory.
    Memory,
}

/// The stop for words that are refused, or for which there was no memory.
pub fn words_stop(fault: WordFault) -> Stop
    ensures { result ≡ stop_by_words fault }
{
    match fault {
        WordFault::NoCommand => Stop::Words(WordsWhy::NoCommand),
        WordFault::UnknownCommand => Stop::Words(WordsWhy::UnknownCommand),
        WordFault::Refused => Stop::Words(WordsWhy::Refused),
        WordFault::Names => Stop::Words(WordsWhy::Names),
        WordFault::Memory => Stop::Memory,
    }
}

/// The stop for a settings file that is refused, or for which there was no memory.
pub fn settings_stop(fault: SettingFault) -> Stop
    ensures { result ≡ stop_by_settings fault }
{
    match fault {
        SettingFault::Text => Stop::Settings(SettingsWhy::Text),
        SettingFault::Unknown => Stop::Settings(SettingsWhy::Unknown),
        SettingFault::Key(key) => Stop::Settings(SettingsWhy::Key(key)),
        SettingFault::Memory => Stop::Memory,
    }
}

/// The exit status of a run that was stopped so.
pub fn status(stop: Stop) -> u8
    ensures { result ≡ status_of stop }
{
    match stop {
        Stop::Words(_) => 1,
        Stop::Settings(_) => 2,
        Stop::Capture { .. } => 3,
        Stop::Absent(_) => 4,
        Stop::ReadFailed(_) | Stop::WireFailed | Stop::OrderFailed | Stop::PrintFailed => 5,
        Stop::Memory => 6,
        Stop::TooManyFiles | Stop::TooLong(_) | Stop::TooManyBytes | Stop::TooManyFrames => 7,
    }
}
