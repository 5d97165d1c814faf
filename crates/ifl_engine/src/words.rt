ghost use Rattle.std.specs.Prelude.{◌≡◌, map, option_map, IfOk};
ghost use Rattle.std.specs.String.{string_bytes};
ghost use Rattle.ifl_engine.specs.Words.{asked, or_empty};
ghost use Rattle.ifl_engine.specs.FaultLines.{file_named};
ghost use Rattle.ifl_conf.specs.Commands.{HasFiles};
ghost use Rattle.ifl_engine.specs.Read.{GivesWords, IsApart};

use crate::stop::{Stop, words_stop};
use ifl_conf::{Command, SendWords, read_words};
use std::alloc::Global;

/// Reads the words behind the program's name.
///
/// A fault is the first in the order of [`WordFault`](ifl_conf::WordFault); the two files that `send` is to write have
/// two names, and it has one FILE at least.
pub fn asked(alloc: Global, words: &[String]) -> Result<Command, Stop>
    ensures gives { GivesWords result (asked (map string_bytes words.now)) }
    ensures apart { IfOk result IsApart }
    ensures files { IfOk result HasFiles }
{
    match read_words(alloc, words) {
        Ok(command) => Ok(command),
        Err(fault) => Err(words_stop(fault)),
    }
}

/// The settings file's name, or the empty text where none is given.
pub fn settings_name(names: &SendWords) -> &str
    ensures { result.now ≡ or_empty (option_map string_bytes names.now.settings) }
{
    match &names.settings {
        Some(name) => name.as_str(),
        None => "",
    }
}

/// The name of the FILE of this number, or the empty text where there is none.
pub fn file_name(names: &SendWords, number: u32) -> &str
    ensures { result.now ≡ file_named (map string_bytes names.now.files.items) number }
{
    match names.files.get(number as usize) {
        Some(file) => file.as_str(),
        None => "",
    }
}
