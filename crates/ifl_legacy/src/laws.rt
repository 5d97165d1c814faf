//! What the word tie comes to. A law is a function that does nothing, and its contract is the law.
ghost use Rattle.std.specs.Prelude.{◌≡◌, suc, true, List, ◌∷◌, ◌++◌, length, replicate};
ghost use Rattle.ifl_desc.specs.declared.desc.Desc.{Desc};
ghost use Rattle.ifl_desc.specs.Frames.{IsWholeFrame};
ghost use Rattle.ifl_legacy.specs.Legacy.{statuses};

/// The statuses of a frame and of what stands behind it: first the number of the frame's entries, and 0 at its others.
pub fn a_frame_shows_its_number_of_entries()
    ensures { (d : Desc) (ds rest : List Desc) → IsWholeFrame (d ∷ ds) → statuses true (d ∷ ds ++ rest) ≡ suc (length ds) ∷ (replicate (length ds) 0 ++ statuses true rest) }
{}
