ghost use Rattle.std.specs.Prelude.{◌≡◌, ◌∷◌, [], ◌||◌, option_map, map, string_bytes};
ghost use Rattle.std.specs.List.{list_any};
ghost use Rattle.std.specs.Str.{bytes_eq};
ghost use Rattle.ifl_conf.specs.Grammar.{value_of};
ghost use Rattle.ifl_conf.specs.Clashes.{names_clash, is_read, is_value, clashes};
ghost use Rattle.ifl_conf.specs.GivenOption.{given};

use crate::front::GivenOption;
use crate::grammar::value_of;
use crate::words::OptionName;

/// Whether two names are equal, of which one is written.
#[tactic(auto, unfolding(crate::specs::Clashes::names_clash))]
pub(crate) fn names_clash(options: &[GivenOption], files: &[String]) -> bool
    ensures { result ≡ names_clash (map given options.now) (map string_bytes files.now) }
{
    let wire = value_of(options, OptionName::Wire);
    let order = value_of(options, OptionName::Order);
    let host = value_of(options, OptionName::Host);
    clashes(wire, order, host, options, files)
        || clashes(order, host, None, options, files)
        || clashes(host, None, None, options, files)
}

/// Whether the name is also one of the others, or that of a file that is read.
fn clashes(
    name: Option<&str>,
    first: Option<&str>,
    second: Option<&str>,
    options: &[GivenOption],
    files: &[String],
) -> bool
    ensures { result ≡ clashes (option_map (λ v. v.now) name.entry)
        (option_map (λ v. v.now) first.entry ∷ option_map (λ v. v.now) second.entry ∷ []) (map given options.now) (map string_bytes files.now) }
{
    match name {
        None => false,
        Some(name) => {
            is_value(name, first) || is_value(name, second) || is_read(name, options, files)
        }
    }
}

/// Whether the name is this value, where there is one.
fn is_value(name: &str, value: Option<&str>) -> bool
    ensures { result ≡ is_value name.now (option_map (λ v. v.now) value.entry) }
{
    match value {
        None => false,
        Some(value) => name == value,
    }
}

/// Whether the name is also that of a file that is read.
#[tactic(auto, using(crate::proofs::FileLists::any_of_map))]
fn is_read(name: &str, options: &[GivenOption], files: &[String]) -> bool
    ensures { result ≡ is_read name.now (map given options.now) (map string_bytes files.now) }
{
    is_value(name, value_of(options, OptionName::SettingsFile))
        || is_input_or_file(name, options, files)
}

/// Whether the name is also a FILE word.
fn is_file(name: &str, files: &[String]) -> bool
    ensures { result ≡ list_any (λ f. bytes_eq name.now (string_bytes f)) files.now }
{
    files.iter().any(|file| name == file.as_str())
}

/// Whether the name is also that of `--in`, or a FILE word.
#[tactic(auto, using(crate::proofs::FileLists::any_of_map))]
fn is_input_or_file(name: &str, options: &[GivenOption], files: &[String]) -> bool
    ensures { result ≡ (is_value name.now (value_of OptionName.Input (map given options.now)) || list_any (bytes_eq name.now) (map string_bytes files.now)) }
{
    is_value(name, value_of(options, OptionName::Input)) || is_file(name, files)
}
