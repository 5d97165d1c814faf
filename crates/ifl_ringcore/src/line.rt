ghost use Rattle.std.specs.Prelude.{◌≡◌, ◌≢◌, ◌^◌, ◌<◌, ◌∷◌, ◌++◌, ◌&&◌, nat_lt, nat_eq, length, ℕ, IfSome, IfNone, decimal, codes, true, false, Option, Some, None};
ghost use Rattle.std.specs.Char.{is_ascii_digit};
ghost use Rattle.std.specs.List.{list_all, position};
ghost use Rattle.std.specs.Str.{bytes_eq};
ghost use Rattle.ifl_ringcore.specs.Lines.{Lacks, spaced_if, Fits32};
ghost use Rattle.ifl_ringcore.specs.Schedule.{IsEvent, event_line, IsRing, ring_line};
ghost use Rattle.ifl_ringcore.specs.declared.event.Event.{Event};
ghost use Rattle.ifl_ringcore.specs.Reading.{event_named, is_number, is_in_range};

use crate::event::Event;
use std::str;

/// What stands before the first of these bytes, and what stands behind it.
pub fn cut(text: &[u8], at: u8) -> Option<(&[u8], &[u8])>
    ensures some { IfSome result (λ parts. (text.now ≡ parts.0.now ++ (at ∷ parts.1.now)) × Lacks at parts.0.now) }
    ensures none { IfNone result (Lacks at text.now) }
{
    match place_of(text, at) {
        Some(i) => Some((&text[..i], &text[i + 1..])),
        None => None,
    }
}

fn place_of(text: &[u8], at: u8) -> Option<usize>
    ensures { result ≡ position (λ byte. nat_eq byte at) text.now }
{
    text.iter().position(|byte| *byte == at)
}

/// The number below 2^32 that the word writes in decimal, without a sign and without leading zeros.
pub fn number(word: &[u8]) -> Option<u32>
    ensures some { IfSome result (λ n. word.now ≡ decimal n) }
    ensures none { IfNone result ((n : ℕ) → n < 2 ^ 32 → word.now ≢ decimal n) }
{
    if !is_number(word) {
        return None;
    }
    match str::from_utf8(word) {
        Ok(text) => match text.parse::<u32>() {
            Ok(n) => Some(n),
            Err(_) => None,
        },
        Err(_) => None,
    }
}

fn is_number(word: &[u8]) -> bool
    ensures { result ≡ is_number word.now }
{
    are_digits(word) && (word.len() == 1 || word[0] != b'0')
}

fn are_digits(word: &[u8]) -> bool
    ensures { result ≡ (nat_lt 0 (length word.now) && list_all is_ascii_digit word.now) }
{
    !word.is_empty() && only_digits(word)
}

fn only_digits(word: &[u8]) -> bool
    ensures { result ≡ list_all is_ascii_digit word.now }
{
    word.iter().all(|byte| byte.is_ascii_digit())
}

/// One number, or two with a space between them.
fn numbers(text: &[u8]) -> Option<(u32, Option<u32>)>
    ensures some { IfSome result (λ t. text.now ≡ decimal t.0 ++ spaced_if t.1) }
    ensures fits { IfSome result (λ t. (t.0 < 2 ^ 32) × Fits32 t.1) }
    ensures none { IfNone result ((seat : ℕ) (n : Option ℕ) → seat < 2 ^ 32 → Fits32 n → text.now ≢ decimal seat ++ spaced_if n) }
{
    match cut(text, b' ') {
        Some((first, second)) => Some((number(first)?, Some(number(second)?))),
        None => Some((number(text)?, None)),
    }
}

/// The event that the line writes.
pub fn event(line: &[u8]) -> Option<Event>
    ensures some { IfSome result (λ e. (line.now ≡ event_line e) × IsEvent e) }
    ensures none { IfNone result ((e : Event) → IsEvent e → line.now ≢ event_line e) }
{
    let (name, rest) = cut(line, b' ')?;
    let (seat, n) = numbers(rest)?;
    let event = event_named(name, seat, n)?;
    if is_in_range(&event) {
        Some(event)
    } else {
        None
    }
}

/// The ring's size and its number of seats, as the line writes them.
pub fn ring(line: &[u8]) -> Option<(u32, u32)>
    ensures some { IfSome result (λ r. (line.now ≡ ring_line r.0 r.1) × IsRing r.0 r.1) }
    ensures none { IfNone result ((size seats : ℕ) → IsRing size seats → line.now ≢ ring_line size seats) }
{
    let (name, rest) = cut(line, b' ')?;
    if !is_ring_name(name) {
        return None;
    }
    let (size, seats) = numbers(rest)?;
    let seats = seats?;
    if is_ring(size, seats) {
        Some((size, seats))
    } else {
        None
    }
}

fn is_ring_name(name: &[u8]) -> bool
    ensures { result ≡ bytes_eq name.now (codes "ring") }
{
    name == b"ring".as_slice()
}

fn is_ring(size: u32, seats: u32) -> bool
    ensures yes { result ≡ true → IsRing size seats }
    ensures no { result ≡ false → IsRing size seats → ⊥ }
{
    4 <= size && size <= 65_536 && 1 <= seats && seats <= 65_535
}

fn is_in_range(e: &Event) -> bool
    ensures { result ≡ is_in_range e.now }
{
    match *e {
        Event::Elected { budget, .. } => budget <= 65_535,
        Event::TakeOver { budget, .. } => budget <= 65_535,
        _ => true,
    }
}

fn event_named(name: &[u8], seat: u32, n: Option<u32>) -> Option<Event>
    ensures { result ≡ event_named name.now seat n }
{
    match str::from_utf8(name) {
        Ok(name) => match n {
            Some(n) => counted_event(name, seat, n),
            None => bare_event(name, seat),
        },
        Err(_) => None,
    }
}

// The event without a number that is called so.
fn bare_event(name: &str, seat: u32) -> Option<Event>
    ensures { result ≡ event_named name.now seat None }
{
    match name {
        "look" => Some(Event::Look { seat }),
        "behind" => Some(Event::Behind { seat }),
        "abdicating" => Some(Event::Abdicating { seat }),
        _ => None,
    }
}

// The event with a number that is called so.
fn counted_event(name: &str, seat: u32, n: u32) -> Option<Event>
    ensures { result ≡ event_named name.now seat (Some n) }
{
    match name {
        "refuse" => Some(Event::Refuse { seat, n }),
        "reserve" => Some(Event::Reserve { seat, n }),
        "elected" => Some(Event::Elected { seat, budget: n }),
        "advance" => Some(Event::Advance { seat, n }),
        "idle" => Some(Event::LeaveIdle { seat, n }),
        "abdicate" => Some(Event::LeaveAbdicated { seat, n }),
        "stall" => Some(Event::Stall { seat, n }),
        "takeover" => Some(Event::TakeOver { seat, budget: n }),
        _ => None,
    }
}
