ghost use Rattle.std.specs.Prelude.{◌≡◌, true, ◌++◌, List, map, ℕ, Some};
ghost use Rattle.std.specs.List.{list_all, flat_map};
ghost use Rattle.ifl_conf.specs.declared.words.CommandName.{CommandName};
ghost use Rattle.ifl_conf.specs.declared.keys.KeyName.{KeyName as Keyed};
ghost use Rattle.ifl_conf.specs.Front.{front};
ghost use Rattle.ifl_conf.specs.FileWords.{files_of};
ghost use Rattle.ifl_conf.specs.Spelling.{IsSpelled, Written, Files, is_option_of, are_files, option_words, file_words, files_in, given_by, AreFileWords};
ghost use Rattle.ifl_conf.specs.Keys.{row, fits};
ghost use Rattle.ifl_conf.specs.Documents.{first_conflict};
ghost use Rattle.ifl_conf.specs.Kept.{setting};

use crate::settings::Settings;

// Laws: functions that do nothing, and whose clauses are facts on which callers may build.

/// The options at the front of the words are those that spell it: what is spelled by options of the command is read as
/// them, and what is read is spelled by options of the command.
#[tactic(auto, using(crate::proofs::SpelledWords::front_is_spelled, crate::proofs::PlainWords::front_reads))]
pub fn front_is_spelled()
    ensures read { (c : CommandName) (os : List Written) (fs : Files) → list_all (is_option_of c) os ≡ true → are_files fs ≡ true
        → front c (flat_map option_words os ++ file_words fs) ≡ (map given_by os, file_words fs) }
    ensures only { (c : CommandName) (ws : List (List ℕ)) → IsSpelled c ws (front c ws) }
{}

/// FILE words are read as they are written, and what is read is written so.
#[tactic(auto, using(crate::proofs::FileSpelling::files_of_file_words, crate::proofs::FileSpelling::files_of_written))]
pub fn files_are_spelled()
    ensures read { (fs : Files) → are_files fs ≡ true → files_of (file_words fs) ≡ Some (files_in fs) }
    ensures only { (ws : List (List ℕ)) (fs : List (List ℕ)) → files_of ws ≡ Some fs → AreFileWords ws fs }
{}

/// Each key of settings fits its row of the table, and no rule over several keys is broken.
pub fn settings_are_valid(settings: &Settings)
    ensures each { (k : Keyed) → fits (row k).kind (setting settings.now k) ≡ true }
    ensures together { first_conflict (λ k. Some (setting settings.now k)) ≡ None }
{}
