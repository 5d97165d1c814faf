ghost use Rattle.std.specs.Prelude.{◌≡◌, ◌^◌, ◌<◌, length, IfOk};
ghost use Rattle.ifl_ringcore.specs.Schedule.{IsRing};
ghost use Rattle.ifl_ringcore.specs.Trace.{trace_text, is_legal};

use crate::machine::Machine;
use crate::schedule::Schedule;
use crate::texts::{put_counters, put_fault, put_word};
use ifl_base::{Items, NoMemory};
use std::alloc::Global;

/// The most bytes of a line with a word: 16 digits, a space, the flag's name and the line feed.
const WORD_LINE: usize = 27;

/// What replaying a schedule prints.
#[derive(Drop)]
pub struct Trace {
    /// A line for each event that was made, and then the counters, or the first event that is not legal.
    pub text: Items<u8>,
    /// Each event of the schedule is legal.
    pub is_legal: bool,
}

/// Replays a schedule on a ring of its own, up to the first event that is not legal.
pub fn replay(alloc: Global, schedule: &Schedule) -> Result<Trace, NoMemory>
    requires ring { IsRing schedule.now.size schedule.now.seats }
    requires lines { length schedule.now.events < 2 ^ 32 }
    ensures text { IfOk result (λ t. t.text ≡ trace_text schedule.now) }
    ensures legal { IfOk result (λ t. t.is_legal ≡ is_legal schedule.now) }
{
    let mut machine = Machine::new(alloc, schedule.size, schedule.seats)?;
    let events = schedule.events.as_slice();
    let mut text = Vec::with_capacity(alloc, events.len() * WORD_LINE)?;
    let mut line = 1;
    for event in events {
        line += 1;
        match machine.apply(event) {
            Ok(()) => put_word(&mut text, &machine.word())?,
            Err(condition) => {
                put_fault(alloc, &mut text, line, condition.name())?;
                let text = Items::from_vec(text);
                return Ok(Trace {
                    text,
                    is_legal: false,
                });
            }
        }
    }
    put_counters(alloc, &mut text, &machine.counters())?;
    let text = Items::from_vec(text);
    Ok(Trace {
        text,
        is_legal: true,
    })
}
