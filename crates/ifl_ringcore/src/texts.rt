ghost use Rattle.std.specs.Prelude.{◌≡◌, ◌++◌, OnOk, IfOk};
ghost use Rattle.std.specs.String.{string_bytes};
ghost use Rattle.ifl_ringcore.specs.Texts.{hex_digits, word_line, count_text, counters_line, fault_line};

use crate::counters::Counters;
use ifl_base::{NoMemory, RingWord};
use std::alloc::Global;

const HEX: [u8; 16] = *b"0123456789abcdef";

/// Appends a line with the packed word in 16 hexadecimal digits and the flag's name.
#[tactic(auto, unfolding(crate::specs::Texts::word_line))]
pub fn put_word(out: &mut Vec<u8>, word: &RingWord) -> Result<(), NoMemory>
    ensures { OnOk result (out.new.items ≡ out.old.items ++ word_line word.now) }
{
    out.extend_from_slice(&hex_word(word.pack()))?;
    out.extend_from_slice(b" ")?;
    out.extend_from_slice(word.flag.name().as_bytes())?;
    out.extend_from_slice(b"\n")?;
    Ok(())
}

/// Appends the line of the counters.
#[tactic(auto, unfolding(crate::specs::Texts::counters_line))]
pub fn put_counters(alloc: Global, out: &mut Vec<u8>, c: &Counters) -> Result<(), NoMemory>
    ensures { OnOk result (out.new.items ≡ out.old.items ++ counters_line c.now) }
{
    put_count(alloc, out, "starts ", c.starts)?;
    put_count(alloc, out, " stalls ", c.stalls)?;
    put_count(alloc, out, " restarts ", c.restarts)?;
    put_count(alloc, out, " abdications ", c.abdications)?;
    put_count(alloc, out, " enqueues ", c.enqueues)?;
    put_count(alloc, out, " drops ", c.drops)?;
    out.extend_from_slice(b"\n")?;
    Ok(())
}

fn put_count(alloc: Global, out: &mut Vec<u8>, name: &str, n: u64) -> Result<(), NoMemory>
    ensures { OnOk result (out.new.items ≡ out.old.items ++ count_text name.now n) }
{
    let text = format!(in alloc; "{name}{n}")?;
    out.extend_from_slice(text.as_bytes())?;
    Ok(())
}

/// Appends the line that names a line of the schedule and why it is a fault.
pub fn put_fault(alloc: Global, out: &mut Vec<u8>, line: u64, why: &str) -> Result<(), NoMemory>
    ensures { OnOk result (out.new.items ≡ out.old.items ++ fault_line line why.now) }
{
    let text = fault_text(alloc, line, why)?;
    out.extend_from_slice(text.as_bytes())?;
    Ok(())
}

#[tactic(auto, unfolding(crate::specs::Texts::fault_line))]
fn fault_text(alloc: Global, line: u64, why: &str) -> Result<String, NoMemory>
    ensures { IfOk result (λ t. string_bytes t ≡ fault_line line why.now) }
{
    let text = format!(in alloc; "trace: line {line}: {why}\n")?;
    Ok(text)
}

fn hex_word(word: u64) -> [u8; 16]
    ensures { result ≡ hex_digits 16 word }
{
    let mut digits = [b'0'; 16];
    let mut rest = word;
    let mut i = 16;
    while i > 0 {
        i -= 1;
        digits[i] = HEX[(rest % 16) as usize];
        rest /= 16;
    }
    digits
}
