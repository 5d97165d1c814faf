ghost use Rattle.std.specs.Prelude.{◌≡◌, ◌≤◌, true, Some, IfOk, IfErr, IfSome, option_map, map, string_bytes};
ghost use Rattle.std.specs.Str.Parse.{digits_value};
ghost use Rattle.ifl_conf.specs.Grammar.{value_of, is_given, is_number_within, has_numbers, is_of_grammar};
ghost use Rattle.ifl_conf.specs.GivenOption.{given};
ghost use Rattle.ifl_conf.specs.Commands.{Shows, ShowsSend, ShowsGen, ShowsCheck};
ghost use Rattle.ifl_conf.specs.declared.word_fault.WordFault.TheVariants.{Memory};

use crate::command::{CheckWords, Command, GenWords, SendWords};
use crate::front::GivenOption;
use crate::grammar::{is_given, value_of};
use crate::numbers::number_of;
use crate::word_fault::WordFault;
use crate::words::{CommandName, OptionName};
use ifl_base::{FILES_MAX, FRAMES_MAX};
use std::alloc::Global;

/// The command of options and FILE words that are of the grammar.
pub(crate) fn make(
    alloc: Global,
    command: CommandName,
    options: &[GivenOption],
    files: &[String],
) -> Result<Command, WordFault>
    requires { is_of_grammar command (map given options.now) (map string_bytes files.now) ≡ true }
    ensures shows { IfOk result (λ asked. Shows asked command (map given options.now) (map string_bytes files.now)) }
    ensures memory { IfErr result (λ e. e ≡ Memory) }
{
    match command {
        CommandName::Send => Ok(Command::Send(make_send(alloc, options, files)?)),
        CommandName::Gen => Ok(Command::Gen(make_gen(alloc, options)?)),
        CommandName::Trace => Ok(Command::Trace {
            file: String::from_str(alloc, files[0].as_str())?,
        }),
        CommandName::Check => Ok(Command::Check(make_check(alloc, options, files)?)),
    }
}

/// The words of `send`.
fn make_send(
    alloc: Global,
    options: &[GivenOption],
    files: &[String],
) -> Result<SendWords, WordFault>
    requires wire { is_given OptionName.Wire (map given options.now) ≡ true }
    requires order { is_given OptionName.Order (map given options.now) ≡ true }
    ensures shows { IfOk result (λ s. ShowsSend s (map given options.now) (map string_bytes files.now)) }
    ensures memory { IfErr result (λ e. e ≡ Memory) }
{
    let settings = text_of(alloc, options, OptionName::SettingsFile)?;
    let wire = required_text(alloc, options, OptionName::Wire)?;
    let order = required_text(alloc, options, OptionName::Order)?;
    let input = text_of(alloc, options, OptionName::Input)?;
    let host = text_of(alloc, options, OptionName::Host)?;
    let ring = is_given(options, OptionName::Ring);
    let files = copies(alloc, files)?;
    Ok(SendWords {
        settings,
        wire,
        order,
        input,
        host,
        ring,
        files,
    })
}

/// The words of `gen`.
fn make_gen(alloc: Global, options: &[GivenOption]) -> Result<GenWords, WordFault>
    requires wire { is_given OptionName.Wire (map given options.now) ≡ true }
    requires order { is_given OptionName.Order (map given options.now) ≡ true }
    requires seed { is_given OptionName.Seed (map given options.now) ≡ true }
    requires senders { is_given OptionName.Senders (map given options.now) ≡ true }
    requires frames { is_given OptionName.Frames (map given options.now) ≡ true }
    requires numbers { has_numbers (map given options.now) ≡ true }
    ensures shows { IfOk result (λ s. ShowsGen s (map given options.now)) }
    ensures memory { IfErr result (λ e. e ≡ Memory) }
{
    let seed = required_number(options, OptionName::Seed, 0, u64::MAX);
    let senders = required_number(options, OptionName::Senders, 1, FILES_MAX as u64) as u32;
    let frames = required_number(options, OptionName::Frames, 0, FRAMES_MAX as u64) as u32;
    let settings = text_of(alloc, options, OptionName::SettingsFile)?;
    let wire = required_text(alloc, options, OptionName::Wire)?;
    let order = required_text(alloc, options, OptionName::Order)?;
    let ring = is_given(options, OptionName::Ring);
    Ok(GenWords {
        seed,
        senders,
        frames,
        settings,
        wire,
        order,
        ring,
    })
}

/// The words of `check`.
fn make_check(
    alloc: Global,
    options: &[GivenOption],
    files: &[String],
) -> Result<CheckWords, WordFault>
    requires wire { is_given OptionName.Wire (map given options.now) ≡ true }
    requires order { is_given OptionName.Order (map given options.now) ≡ true }
    ensures shows { IfOk result (λ s. ShowsCheck s (map given options.now) (map string_bytes files.now)) }
    ensures memory { IfErr result (λ e. e ≡ Memory) }
{
    let settings = text_of(alloc, options, OptionName::SettingsFile)?;
    let wire = required_text(alloc, options, OptionName::Wire)?;
    let order = required_text(alloc, options, OptionName::Order)?;
    let files = copies(alloc, files)?;
    Ok(CheckWords {
        settings,
        wire,
        order,
        files,
    })
}

/// The value of an option, None where it wasn't written.
fn text_of(
    alloc: Global,
    options: &[GivenOption],
    name: OptionName,
) -> Result<Option<String>, WordFault>
    ensures value { IfOk result (λ s. option_map string_bytes s ≡ value_of name (map given options.now)) }
    ensures memory { IfErr result (λ e. e ≡ Memory) }
{
    match value_of(options, name) {
        Some(text) => Ok(Some(String::from_str(alloc, text)?)),
        None => Ok(None),
    }
}

/// The value of an option that was written.
fn required_text(
    alloc: Global,
    options: &[GivenOption],
    name: OptionName,
) -> Result<String, WordFault>
    requires { is_given name (map given options.now) ≡ true }
    ensures value { IfOk result (λ s. value_of name (map given options.now) ≡ Some (string_bytes s)) }
    ensures memory { IfErr result (λ e. e ≡ Memory) }
{
    match value_of(options, name) {
        Some(text) => Ok(String::from_str(alloc, text)?),
        None => unreachable!(),
    }
}

/// The number that an option has, which was written and is in the range.
fn required_number(options: &[GivenOption], name: OptionName, least: u64, most: u64) -> u64
    requires given { is_given name (map given options.now) ≡ true }
    requires within { is_number_within least most (value_of name (map given options.now)) ≡ true }
    ensures value { IfSome (value_of name (map given options.now)) (λ w. result ≡ digits_value 10 w) }
    ensures most { result ≤ most }
{
    match value_of(options, name) {
        Some(text) => match number_of(text) {
            Some(n) => n,
            None => unreachable!(),
        },
        None => unreachable!(),
    }
}

/// Copies of the words.
fn copies(alloc: Global, words: &[String]) -> Result<Vec<String>, WordFault>
    ensures value { IfOk result (λ v. map string_bytes v.items ≡ map string_bytes words.now) }
    ensures memory { IfErr result (λ e. e ≡ Memory) }
{
    let mut copied = Vec::new(alloc);
    'words: for word in words {
        copied.push(String::from_str(alloc, word.as_str())?)?;
    }
    Ok(copied)
}
