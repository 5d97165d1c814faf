ghost use Rattle.std.specs.Prelude.{◌≡◌, option_map, map, string_bytes};
ghost use Rattle.ifl_conf.specs.Options.{takes_files};
ghost use Rattle.ifl_conf.specs.Grammar.{value_of, is_given, are_distinct, has_required, has_both_or_neither, has_numbers, is_of_grammar};
ghost use Rattle.ifl_conf.specs.GivenOption.{given};

use crate::front::GivenOption;
use crate::numbers::is_number_within;
use crate::words::{CommandName, OptionName};
use ifl_base::{FILES_MAX, FRAMES_MAX};

/// The value of an option that was written.
pub(crate) fn value_of(options: &[GivenOption], name: OptionName) -> Option<&str>
    ensures { option_map (λ v. v.now) result ≡ value_of name (map given options.now) }
{
    let mut i = 0;
    'options: while i < options.len() {
        if name.text() == options[i].name.text() {
            return Some(options[i].value.as_str());
        }
        i += 1;
    }
    None
}

/// Whether no option stands twice.
pub(crate) fn are_distinct(options: &[GivenOption]) -> bool
    ensures { result ≡ are_distinct (map given options.now) }
{
    let mut i = 0;
    'options: while i < options.len() {
        if value_of(&options[i + 1..], options[i].name).is_some() {
            return false;
        }
        i += 1;
    }
    true
}

/// Whether each option is there that the command must have.
pub(crate) fn has_required(command: CommandName, options: &[GivenOption]) -> bool
    ensures { result ≡ has_required command (map given options.now) }
{
    let has_names = is_given(options, OptionName::Wire) && is_given(options, OptionName::Order);
    match command {
        CommandName::Send | CommandName::Check => has_names,
        CommandName::Trace => true,
        CommandName::Gen => {
            is_given(options, OptionName::Seed)
                && is_given(options, OptionName::Senders)
                && is_given(options, OptionName::Frames)
                && has_names
        }
    }
}

/// Whether the option was written.
pub(crate) fn is_given(options: &[GivenOption], name: OptionName) -> bool
    ensures { result ≡ is_given name (map given options.now) }
{
    value_of(options, name).is_some()
}

/// Whether `--in` and `--host` stand together, or neither does.
pub(crate) fn has_both_or_neither(options: &[GivenOption]) -> bool
    ensures { result ≡ has_both_or_neither (map given options.now) }
{
    is_given(options, OptionName::Input) == is_given(options, OptionName::Host)
}

/// Whether each number that was written is one in its range.
pub(crate) fn has_numbers(options: &[GivenOption]) -> bool
    ensures { result ≡ has_numbers (map given options.now) }
{
    is_number_within(value_of(options, OptionName::Seed), 0, u64::MAX)
        && is_number_within(value_of(options, OptionName::Senders), 1, FILES_MAX as u64)
        && is_number_within(value_of(options, OptionName::Frames), 0, FRAMES_MAX as u64)
}

/// Whether the options and FILE words are of the grammar.
#[tactic(auto, unfolding(crate::specs::Grammar::is_of_grammar))]
pub(crate) fn is_of_grammar(command: CommandName, options: &[GivenOption], files: &[String]) -> bool
    ensures { result ≡ is_of_grammar command (map given options.now) (map string_bytes files.now) }
{
    are_distinct(options)
        && has_required(command, options)
        && has_both_or_neither(options)
        && has_numbers(options)
        && takes_files(command, files.len())
}

/// Whether the command takes so many FILE words.
fn takes_files(command: CommandName, count: usize) -> bool
    ensures { result ≡ takes_files command count }
{
    match command {
        CommandName::Send | CommandName::Check => count > 0,
        CommandName::Gen => count == 0,
        CommandName::Trace => count == 1,
    }
}
