ghost use Rattle.std.specs.Prelude.{◌≡◌, ◌≢◌, ◌^◌, ◌<◌, ◌++◌, ◌∷◌, [], ℕ, List, All, length, codes, decimal, IfSome, IfNone, IfOk, OnOk};
ghost use Rattle.std.specs.List.{flat_map};
ghost use Rattle.ifl_base.specs.declared.fate.Fate.{Fate};
ghost use Rattle.ifl_base.specs.declared.fate.Away.{Away};
ghost use Rattle.ifl_check.specs.declared.line.Line.{Line};
ghost use Rattle.ifl_check.specs.Text.{fate_text, away_text, number_then, line_text, HasNumbers, IsAwayLine, IsOrderText};
ghost use Rattle.ifl_check.specs.FirstFailing.{IsNoOrderText};

use crate::line::{Line, Order};
use crate::parts::{behind, cut, number_before};
use crate::words::{away, fate};
use ifl_base::{Away, Fate, NoMemory};
use std::alloc::Global;

/// The fewest bytes of a line.
const LINE_MIN: usize = 9;

/// Reads an order text. It answers no lines exactly where the text is that of none.
pub fn read_order(alloc: Global, text: &[u8]) -> Result<Option<Order>, NoMemory>
    ensures some { IfOk result (λ found. IfSome found (λ o. IsOrderText text.now o.accepted.items o.away.items)) }
    ensures none { IfOk result (λ found. IfNone found (IsNoOrderText text.now)) }
{
    let Some((count, rest)) = count_behind(text, b"accepted ") else {
        return Ok(None);
    };
    let mut accepted = Vec::with_capacity(alloc, room_for(count, rest))?;
    let Some(rest) = read_accepted(&mut accepted, count, rest)? else {
        return Ok(None);
    };
    let Some((count, rest)) = count_behind(rest, b"away ") else {
        return Ok(None);
    };
    let mut away = Vec::with_capacity(alloc, room_for(count, rest))?;
    let Some(rest) = read_away(&mut away, count, rest)? else {
        return Ok(None);
    };
    if !rest.is_empty() {
        return Ok(None);
    }
    Ok(Some(Order { accepted, away }))
}

/// The number behind a name, and what stands behind its line.
fn count_behind<'a>(text: &'a [u8], name: &[u8]) -> Option<(u64, &'a [u8])>
    ensures some { IfSome result (λ r. (text.now ≡ name.now ++ (decimal r.0 ++ (10 ∷ r.1.now))) × (r.0 < 2 ^ 64)) }
    ensures none { IfNone result ((n : ℕ) (rest : List ℕ) → n < 2 ^ 64 → text.now ≢ name.now ++ (decimal n ++ (10 ∷ rest))) }
    ensures small { length text.now < 2 ^ 64 }
{
    let number = behind(text, name)?;
    number_before(number, b'\n', u64::MAX)
}

/// For how many lines there is to be room: for as many as are announced, and no more than the text can hold.
fn room_for(count: u64, text: &[u8]) -> usize {
    let most = text.len() / LINE_MIN;
    match usize::try_from(count) {
        Ok(count) => count.min(most),
        Err(_) => most,
    }
}

/// Reads so many accepted lines, and hands back what stands behind them.
fn read_accepted<'a>(
    lines: &mut Vec<Line<Fate>>,
    count: u64,
    text: &'a [u8],
) -> Result<Option<&'a [u8]>, NoMemory>
    requires { lines.old.items ≡ [] }
    ensures some { IfOk result (λ found. IfSome found (λ rest. (text.now ≡ flat_map (line_text fate_text) lines.new.items ++ rest.now) × (length lines.new.items ≡ count) × All HasNumbers lines.new.items)) }
    ensures none { IfOk result (λ found. IfNone found ((ls : List (Line Fate)) (rest : List ℕ) → length ls ≡ count → All HasNumbers ls → text.now ≢ flat_map (line_text fate_text) ls ++ rest)) }
{
    let mut rest = text;
    for _ in 0..count {
        let Some((line, behind)) = accepted_line(rest) else {
            return Ok(None);
        };
        lines.push(line)?;
        rest = behind;
    }
    Ok(Some(rest))
}

/// Reads so many away lines, and hands back what stands behind them.
fn read_away<'a>(
    lines: &mut Vec<Line<Away>>,
    count: u64,
    text: &'a [u8],
) -> Result<Option<&'a [u8]>, NoMemory>
    requires { lines.old.items ≡ [] }
    ensures some { IfOk result (λ found. IfSome found (λ rest. (text.now ≡ flat_map (line_text away_text) lines.new.items ++ rest.now) × (length lines.new.items ≡ count) × All IsAwayLine lines.new.items)) }
    ensures none { IfOk result (λ found. IfNone found ((ls : List (Line Away)) (rest : List ℕ) → length ls ≡ count → All IsAwayLine ls → text.now ≢ flat_map (line_text away_text) ls ++ rest)) }
{
    let mut rest = text;
    for _ in 0..count {
        let Some((line, behind)) = away_line(rest) else {
            return Ok(None);
        };
        lines.push(line)?;
        rest = behind;
    }
    Ok(Some(rest))
}

/// The sender and the record at the front of a line, and what stands behind them.
fn named(text: &[u8]) -> Option<(u32, u32, &[u8])>
    ensures some { IfSome result (λ r. (text.now ≡ number_then r.0 (number_then r.1 r.2.now)) × (r.0 < 2 ^ 32) × (r.1 < 2 ^ 32)) }
    ensures none { IfNone result ((s k : ℕ) (rest : List ℕ) → s < 2 ^ 32 → k < 2 ^ 32 → text.now ≢ number_then s (number_then k rest)) }
{
    let (sender, rest) = number_before(text, b' ', 4_294_967_295)?;
    let (index, rest) = number_before(rest, b' ', 4_294_967_295)?;
    Some((sender as u32, index as u32, rest))
}

/// The accepted line at the front of the text, and what stands behind it.
fn accepted_line(text: &[u8]) -> Option<(Line<Fate>, &[u8])>
    ensures some { IfSome result (λ r. (text.now ≡ line_text fate_text r.0 ++ r.1.now) × HasNumbers r.0) }
    ensures none { IfNone result ((l : Line Fate) (rest : List ℕ) → HasNumbers l → text.now ≢ line_text fate_text l ++ rest) }
{
    let (sender, index, behind) = named(text)?;
    let (name, rest) = cut(behind, b'\n')?;
    let what = fate(name)?;
    Some((
        Line {
            sender,
            index,
            what,
        },
        rest,
    ))
}

/// The away line at the front of the text, and what stands behind it.
fn away_line(text: &[u8]) -> Option<(Line<Away>, &[u8])>
    ensures some { IfSome result (λ r. (text.now ≡ line_text away_text r.0 ++ r.1.now) × IsAwayLine r.0) }
    ensures none { IfNone result ((l : Line Away) (rest : List ℕ) → IsAwayLine l → text.now ≢ line_text away_text l ++ rest) }
{
    let (sender, index, behind) = named(text)?;
    let (name, rest) = cut(behind, b'\n')?;
    let what = away(name)?;
    Some((
        Line {
            sender,
            index,
            what,
        },
        rest,
    ))
}
