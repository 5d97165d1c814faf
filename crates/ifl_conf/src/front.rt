ghost use Rattle.std.specs.Prelude.{◌≡◌, option_map, IfOk, IfErr, map, string_bytes};
ghost use Rattle.ifl_conf.specs.Front.{is_plain, one_word, two_words, front};
ghost use Rattle.ifl_conf.specs.GivenOption.{given};
ghost use Rattle.ifl_conf.specs.declared.word_fault.WordFault.TheVariants.{Memory};

use crate::word_fault::WordFault;
use crate::words::{CommandName, OptionName};
use std::alloc::Global;

/// An option that was written.
#[derive(Drop)]
pub(crate) struct GivenOption {
    pub(crate) name: OptionName,
    pub(crate) value: String,
}

/// Whether the word isn't empty, and doesn't begin with `-`, unless it is `-` alone.
#[tactic(auto, unfolding(crate::specs::Front::is_plain))]
pub(crate) fn is_plain(word: &str) -> bool
    ensures { result ≡ is_plain word.now }
{
    match word.as_bytes() {
        [] => false,
        [_] => true,
        [first, ..] => *first != b'-',
    }
}

/// The option that this one word writes.
#[tactic(auto, unfolding(crate::specs::Front::one_word, crate::specs::Front::joined, crate::specs::Front::alone))]
fn one_word(
    alloc: Global,
    command: CommandName,
    word: &str,
) -> Result<Option<GivenOption>, WordFault>
    ensures value { IfOk result (λ g. option_map given g ≡ one_word command word.now) }
    ensures memory { IfErr result (λ e. e ≡ Memory) }
{
    match word.split_once('=') {
        Some((name, value)) => match OptionName::named(name) {
            Some(option) if command.takes(option) && option.has_value() && !value.is_empty() => {
                Ok(Some(GivenOption {
                    name: option,
                    value: String::from_str(alloc, value)?,
                }))
            }
            _ => Ok(None),
        },
        None => match OptionName::named(word) {
            Some(option) if command.takes(option) && !option.has_value() => {
                Ok(Some(GivenOption {
                    name: option,
                    value: String::new(alloc),
                }))
            }
            _ => Ok(None),
        },
    }
}

/// The option that these two words write.
#[tactic(auto, unfolding(crate::specs::Front::two_words))]
fn two_words(
    alloc: Global,
    command: CommandName,
    word: &str,
    value: &str,
) -> Result<Option<GivenOption>, WordFault>
    ensures value { IfOk result (λ g. option_map given g ≡ two_words command word.now value.now) }
    ensures memory { IfErr result (λ e. e ≡ Memory) }
{
    match OptionName::named(word) {
        Some(option) if command.takes(option) && option.has_value() && is_plain(value) => {
            Ok(Some(GivenOption {
                name: option,
                value: String::from_str(alloc, value)?,
            }))
        }
        _ => Ok(None),
    }
}

/// The options at the front, and the words after them.
pub(crate) fn options_of(
    alloc: Global,
    command: CommandName,
    words: &[String],
) -> Result<(Vec<GivenOption>, &[String]), WordFault>
    ensures value { IfOk result (λ r. (map given r.0.items, map string_bytes r.1.now) ≡ front command (map string_bytes words.now)) }
    ensures memory { IfErr result (λ e. e ≡ Memory) }
{
    let mut options = Vec::new(alloc);
    let mut i = 0;
    'words: while i < words.len() {
        let word = words[i].as_str();
        if let Some(option) = one_word(alloc, command, word)? {
            options.push(option)?;
            i += 1;
            continue;
        }
        if i + 1 == words.len() {
            break;
        }
        let value = words[i + 1].as_str();
        let Some(option) = two_words(alloc, command, word, value)? else {
            break;
        };
        options.push(option)?;
        i += 2;
    }
    Ok((options, &words[i..]))
}
