//! Laws above the definitions. Each is a function that does nothing, and its contract is the law.

ghost use Rattle.std.specs.Prelude.{◌≡◌, ◌<◌, ◌^◌, ℕ, List, length};
ghost use Rattle.ifl_base.specs.declared.fate.Fate.{Fate};
ghost use Rattle.ifl_base.specs.declared.fate.Away.{Away};
ghost use Rattle.ifl_pcap.specs.declared.frame.Frame.{Frame};
ghost use Rattle.ifl_check.specs.declared.line.Line.{Line};
ghost use Rattle.ifl_check.specs.declared.terms.Terms.{Terms};
ghost use Rattle.ifl_check.specs.Text.{IsOrderText};
ghost use Rattle.ifl_check.specs.FirstFailing.{FirstFailing, AllHold};

/// An order text has one reading.
pub fn order_texts_have_one_reading()
    ensures accepted { (text : List ℕ) (xs ys : List (Line Fate)) (us vs : List (Line Away)) → length text < 2 ^ 64 → IsOrderText text xs us → IsOrderText text ys vs → xs ≡ ys }
    ensures away { (text : List ℕ) (xs ys : List (Line Fate)) (us vs : List (Line Away)) → length text < 2 ^ 64 → IsOrderText text xs us → IsOrderText text ys vs → us ≡ vs }
{}

/// Of one run's files one clause is the first that fails, or none fails, and never both.
pub fn one_clause_fails_first()
    ensures one { (terms : Terms) (files : List (List Frame)) (wire text : List ℕ) (m n : ℕ) → length text < 2 ^ 64 → FirstFailing terms files wire text m → FirstFailing terms files wire text n → m ≡ n }
    ensures never_both { (terms : Terms) (files : List (List Frame)) (wire text : List ℕ) (n : ℕ) → length text < 2 ^ 64 → FirstFailing terms files wire text n → AllHold terms files wire text → ⊥ }
{}
