ghost use Rattle.std.specs.Prelude.{◌≡◌, ◌≢◌, ◌^◌, ◌<◌, ◌≤◌, ◌∷◌, ◌++◌, ◌&&◌, nat_lt, nat_eq, length, ℕ, List, IfSome, IfNone, decimal};
ghost use Rattle.std.specs.Char.{is_ascii_digit};
ghost use Rattle.std.specs.List.{list_all, position};
ghost use Rattle.ifl_check.specs.Parts.{Lacks, is_number};

use std::str;

/// What stands behind these bytes at the front of a text.
pub(crate) fn behind<'a>(text: &'a [u8], front: &[u8]) -> Option<&'a [u8]>
    ensures some { IfSome result (λ rest. text.now ≡ front.now ++ rest.now) }
    ensures none { IfNone result ((rest : List ℕ) → text.now ≢ front.now ++ rest) }
    ensures small { length text.now < 2 ^ 64 }
{
    if text.len() < front.len() {
        return None;
    }
    let (begin, rest) = text.split_at(front.len());
    if begin == front { Some(rest) } else { None }
}

/// What stands before the first of these bytes, and what stands behind it.
pub(crate) fn cut(text: &[u8], at: u8) -> Option<(&[u8], &[u8])>
    ensures some { IfSome result (λ parts. (text.now ≡ parts.0.now ++ (at ∷ parts.1.now)) × Lacks at parts.0.now) }
    ensures none { IfNone result (Lacks at text.now) }
{
    match place_of(text, at) {
        Some(i) => Some((&text[..i], &text[i + 1..])),
        None => None,
    }
}

fn place_of(text: &[u8], at: u8) -> Option<usize>
    ensures { result ≡ position (λ byte. nat_eq byte at) text.now }
{
    text.iter().position(|byte| *byte == at)
}

/// The number below 2^64 that the word writes in decimal, without a sign and without leading zeros.
pub(crate) fn number(word: &[u8]) -> Option<u64>
    ensures some { IfSome result (λ n. (word.now ≡ decimal n) × (n < 2 ^ 64)) }
    ensures none { IfNone result ((n : ℕ) → n < 2 ^ 64 → word.now ≢ decimal n) }
{
    if !is_number(word) {
        return None;
    }
    match str::from_utf8(word) {
        Ok(text) => match text.parse::<u64>() {
            Ok(n) => Some(n),
            Err(_) => None,
        },
        Err(_) => None,
    }
}

fn is_number(word: &[u8]) -> bool
    ensures { result ≡ is_number word.now }
{
    are_digits(word) && (word.len() == 1 || word[0] != b'0')
}

fn are_digits(word: &[u8]) -> bool
    ensures { result ≡ (nat_lt 0 (length word.now) && list_all is_ascii_digit word.now) }
{
    !word.is_empty() && only_digits(word)
}

fn only_digits(word: &[u8]) -> bool
    ensures { result ≡ list_all is_ascii_digit word.now }
{
    word.iter().all(|byte| byte.is_ascii_digit())
}

/// A number of at most `most` at the front of a text, with this byte behind it, and what stands behind that.
pub(crate) fn number_before(text: &[u8], end: u8, most: u64) -> Option<(u64, &[u8])>
    requires { end < 48 }
    ensures some { IfSome result (λ r. (text.now ≡ decimal r.0 ++ (end ∷ r.1.now)) × (r.0 ≤ most)) }
    ensures none { IfNone result ((n : ℕ) (rest : List ℕ) → n ≤ most → text.now ≢ decimal n ++ (end ∷ rest)) }
{
    let (word, rest) = cut(text, end)?;
    let n = number(word)?;
    if n <= most { Some((n, rest)) } else { None }
}
