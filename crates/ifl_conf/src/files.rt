ghost use Rattle.std.specs.Prelude.{◌≡◌, option_map, map, string_bytes};
ghost use Rattle.std.specs.List.{list_all};
ghost use Rattle.ifl_conf.specs.Front.{is_plain};
ghost use Rattle.ifl_conf.specs.FileWords.{is_filled, files_of};

use crate::front::is_plain;

/// The FILE words that stand after the options.
#[tactic(auto, using(crate::proofs::FileLists::files_marked, crate::proofs::FileLists::files_plain), unfolding(crate::specs::FileWords::files_of))]
pub(crate) fn files_of(words: &[String]) -> Option<&[String]>
    ensures { option_map (λ fs. map string_bytes fs.now) result ≡ files_of (map string_bytes words.now) }
{
    if words.is_empty() {
        return Some(words);
    }
    if words[0].as_str() == "--" {
        let files = &words[1..];
        if are_filled(files) { Some(files) } else { None }
    } else if are_plain(words) {
        Some(words)
    } else {
        None
    }
}

/// Whether no word is empty.
fn are_filled(words: &[String]) -> bool
    ensures { result ≡ list_all (λ w. is_filled (string_bytes w)) words.now }
{
    words.iter().all(|word| !word.as_str().is_empty())
}

/// Whether each word is a FILE word without a mark before it.
fn are_plain(words: &[String]) -> bool
    ensures { result ≡ list_all (λ w. is_plain (string_bytes w)) words.now }
{
    words.iter().all(|word| is_plain(word.as_str()))
}
