ghost use Rattle.std.specs.Prelude.{◌≡◌, ◌≤◌, ◌^◌, ◌&&◌, true, IfSome, IfNone, length, nat_lt, option_map};
ghost use Rattle.std.specs.List.{list_all};
ghost use Rattle.std.specs.Char.{is_ascii_digit};
ghost use Rattle.std.specs.Str.Parse.{digits_value};
ghost use Rattle.ifl_conf.specs.Grammar.{is_number, is_number_within};

/// Whether the value, where there is one, is a number in the range.
pub(crate) fn is_number_within(value: Option<&str>, least: u64, most: u64) -> bool
    ensures { result ≡ is_number_within least most (option_map (λ v. v.now) value.entry) }
{
    match value {
        None => true,
        Some(text) => match number_of(text) {
            Some(n) => least <= n && n <= most,
            None => false,
        },
    }
}

/// The number that the text writes without sign and without leading zeros, where it is below 2^64.
#[tactic(auto, using(crate::proofs::Digits::number_text))]
pub(crate) fn number_of(text: &str) -> Option<u64>
    ensures some { IfSome result (λ n. (is_number text.now ≡ true) × (n ≡ digits_value 10 text.now)) }
    ensures none { IfNone result (is_number text.now ≡ true → 2 ^ 64 ≤ digits_value 10 text.now) }
{
    if !is_number(text) {
        return None;
    }
    match text.parse::<u64>() {
        Ok(n) => Some(n),
        Err(_) => None,
    }
}

/// Whether the text is a number without sign and without leading zeros.
fn is_number(text: &str) -> bool
    ensures { result ≡ is_number text.now }
{
    let bytes = text.as_bytes();
    are_digits(bytes) && (bytes.len() == 1 || bytes[0] != b'0')
}

/// Whether there are bytes, all of them digits.
fn are_digits(bytes: &[u8]) -> bool
    ensures { result ≡ (nat_lt 0 (length bytes.now) && list_all is_ascii_digit bytes.now) }
{
    !bytes.is_empty() && only_digits(bytes)
}

/// Whether each byte is a digit.
fn only_digits(bytes: &[u8]) -> bool
    ensures { result ≡ list_all is_ascii_digit bytes.now }
{
    bytes.iter().all(|b| b.is_ascii_digit())
}
