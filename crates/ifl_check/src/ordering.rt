ghost use Rattle.std.specs.Prelude.{◌≡◌, ◌<◌, true, false, All, AllPairs, length, IfOk};
ghost use Rattle.ifl_check.specs.InOrder.{IsBefore, IsSorted, InOrder};

use crate::line::{Line, Order};
use ifl_base::{Away, Fate, NoMemory};
use std::alloc::Global;

/// Whether the lines stand in order, where each accepted line names one of so many files.
pub(crate) fn in_order(alloc: Global, files: usize, order: &Order) -> Result<bool, NoMemory>
    requires { All (λ l. l.sender < files) order.now.accepted.items }
    ensures yes { IfOk result (λ b. b ≡ true → InOrder order.now.accepted.items order.now.away.items) }
    ensures no { IfOk result (λ b. b ≡ false → InOrder order.now.accepted.items order.now.away.items → ⊥) }
{
    if !senders_in_order(alloc, files, &order.accepted)? {
        return Ok(false);
    }
    Ok(away_in_order(&order.away))
}

/// Whether the lines of each sender name its records in order.
fn senders_in_order(alloc: Global, files: usize, lines: &[Line<Fate>]) -> Result<bool, NoMemory>
    requires { All (λ l. l.sender < files) lines.now }
    ensures yes { IfOk result (λ b. b ≡ true → AllPairs IsBefore lines.now) }
    ensures no { IfOk result (λ b. b ≡ false → AllPairs IsBefore lines.now → ⊥) }
{
    let mut least = vec![in alloc; 0u64; files]?;
    for line in lines {
        let index = line.index as u64;
        let sender = line.sender as usize;
        if index < least[sender] {
            return Ok(false);
        }
        least[sender] = index + 1;
    }
    Ok(true)
}

/// Whether the lines stand in the order of senders and records.
fn away_in_order(lines: &[Line<Away>]) -> bool
    ensures yes { result ≡ true → AllPairs IsSorted lines.now }
    ensures no { result ≡ false → AllPairs IsSorted lines.now → ⊥ }
{
    for i in 1..lines.len() {
        if !is_sorted(&lines[i - 1], &lines[i]) {
            return false;
        }
    }
    true
}

fn is_sorted(a: &Line<Away>, b: &Line<Away>) -> bool
    ensures yes { result ≡ true → IsSorted a.now b.now }
    ensures no { result ≡ false → IsSorted a.now b.now → ⊥ }
{
    a.sender < b.sender || (a.sender == b.sender && a.index < b.index)
}
