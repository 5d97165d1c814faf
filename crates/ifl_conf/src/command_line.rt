ghost use Rattle.std.specs.Prelude.{Some, map, string_bytes, IfOk};
ghost use Rattle.ifl_conf.specs.Reading.{reading, command_reading};
ghost use Rattle.ifl_conf.specs.Commands.{Answers, HasFiles, IsServed};

use crate::clashes::names_clash;
use crate::command::Command;
use crate::files::files_of;
use crate::front::options_of;
use crate::grammar::is_of_grammar;
use crate::making::make;
use crate::served::is_form_served;
use crate::word_fault::WordFault;
use crate::words::CommandName;
use std::alloc::Global;

/// Reads the words behind the program's name.
///
/// A fault is the first in the order of [`WordFault`]. `Memory` is answered only where there was no memory.
pub fn read_words(alloc: Global, words: &[String]) -> Result<Command, WordFault>
    ensures answer { Answers result (reading (map string_bytes words.now)) }
    ensures files { IfOk result HasFiles }
    ensures served { IfOk result IsServed }
{
    if words.is_empty() {
        return Err(WordFault::NoCommand);
    }
    match CommandName::named(words[0].as_str()) {
        Some(command) => read_command(alloc, command, &words[1..]),
        None => Err(WordFault::UnknownCommand),
    }
}

/// Reads the words behind a command's name.
#[tactic(auto, using(crate::proofs::ServedForms::served_shown, crate::proofs::ServedForms::files_shown))]
fn read_command(alloc: Global, command: CommandName, words: &[String]) -> Result<Command, WordFault>
    ensures answer { Answers result (command_reading (map string_bytes words.now) (Some command)) }
    ensures files { IfOk result HasFiles }
    ensures served { IfOk result IsServed }
{
    let (options, rest) = options_of(alloc, command, words)?;
    let Some(files) = files_of(rest) else {
        return Err(WordFault::Refused);
    };
    if !(is_of_grammar(command, &options, files) && is_form_served(command, &options)) {
        return Err(WordFault::Refused);
    }
    if command.writes_files() && names_clash(&options, files) {
        return Err(WordFault::Names);
    }
    make(alloc, command, &options, files)
}
