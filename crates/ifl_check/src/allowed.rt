ghost use Rattle.std.specs.Prelude.{◌≡◌, true, false, All};
ghost use Rattle.ifl_check.specs.Allowed.{MayBefall, MayTurnAway, AreAllowed};

use crate::line::{Line, Order};
use crate::terms::Terms;
use ifl_base::{Away, Fate};

/// Whether each line says what it may say under the settings.
pub(crate) fn are_allowed(terms: &Terms, order: &Order) -> bool
    ensures yes { result ≡ true → AreAllowed terms.now order.now.accepted.items order.now.away.items }
    ensures no { result ≡ false → AreAllowed terms.now order.now.accepted.items order.now.away.items → ⊥ }
{
    fates_are_allowed(terms, &order.accepted) && reasons_are_allowed(terms, &order.away)
}

fn fates_are_allowed(terms: &Terms, lines: &[Line<Fate>]) -> bool
    ensures yes { result ≡ true → All (λ l. MayBefall terms.now l.what) lines.now }
    ensures no { result ≡ false → All (λ l. MayBefall terms.now l.what) lines.now → ⊥ }
{
    for line in lines {
        if !may_befall(terms, line.what) {
            return false;
        }
    }
    true
}

fn reasons_are_allowed(terms: &Terms, lines: &[Line<Away>]) -> bool
    ensures yes { result ≡ true → All (λ l. MayTurnAway terms.now l.what) lines.now }
    ensures no { result ≡ false → All (λ l. MayTurnAway terms.now l.what) lines.now → ⊥ }
{
    for line in lines {
        if !may_turn_away(terms, line.what) {
            return false;
        }
    }
    true
}

fn may_befall(terms: &Terms, fate: Fate) -> bool
    ensures yes { result ≡ true → MayBefall terms.now fate }
    ensures no { result ≡ false → MayBefall terms.now fate → ⊥ }
{
    match fate {
        Fate::Wire => true,
        Fate::TooManySegments => true,
        Fate::Reset => terms.hangs,
        Fate::Flush => terms.flushes,
    }
}

fn may_turn_away(terms: &Terms, away: Away) -> bool
    ensures yes { result ≡ true → MayTurnAway terms.now away }
    ensures no { result ≡ false → MayTurnAway terms.now away → ⊥ }
{
    match away {
        Away::Runt => true,
        Away::Oversize => true,
        Away::NoClusters => terms.drops,
        Away::NoBuffers(_) => terms.drops,
    }
}
