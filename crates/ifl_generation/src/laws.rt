//! What the word tie comes to. A law is a function that does nothing, and its contract is the law.
ghost use Rattle.std.specs.Prelude.{◌≡◌, ◌≢◌, ℕ, suc, ◌+◌, ◌%◌, ◌<◌, ◌≤◌, List, slice_index};
ghost use Rattle.ifl_desc.specs.declared.history.Event.{Event};
ghost use Rattle.ifl_desc.specs.History.{uncounted};
ghost use Rattle.ifl_generation.specs.Generation.{WordTie, frames, generation, read};

/// Of the next S frames, the completion entry of one bears its generation exactly where it is returned and not read.
pub fn an_entry_bears_the_generation_of_a_returned_frame()
    ensures { (S : ℕ) (words : List ℕ) (h : List Event) (j : ℕ) → WordTie S words h → j < S → (j < frames (uncounted h) → slice_index words (suc ((read h + j) % S)) % 2 ≡ generation S (read h + j)) × (frames (uncounted h) ≤ j → slice_index words (suc ((read h + j) % S)) % 2 ≢ generation S (read h + j)) }
{}
