ghost use Rattle.std.specs.Prelude.{◌≡◌, ◌≢◌, ◌^◌, ◌<◌, ◌∷◌, ◌++◌, ℕ, List, length, IfSome, IfNone, IfOk, IfErr};
ghost use Rattle.ifl_ringcore.specs.declared.event.Event.{Event};
ghost use Rattle.ifl_ringcore.specs.Schedule.{IsEvent, IsRing, event_line, ring_line, IsScheduleText, IsFaultOf};

use crate::event::Event;
use crate::line::{cut, event, ring};
use crate::schedule::{Schedule, ScheduleFault};
use ifl_base::{Items, NoMemory};
use std::alloc::Global;

/// Reads a schedule: a line `ring SIZE SEATS`, and then one line for each event.
///
/// SIZE is 4 to 65,536 and SEATS 1 to 65,535; each line ends with a line feed. The first line that is not of
/// this grammar is named. The text has fewer than 2^32 bytes.
pub fn read_schedule(alloc: Global, text: &[u8]) -> Result<Schedule, ScheduleFault>
    requires { length text.now < 2 ^ 32 }
    ensures ok { IfOk result (λ s. IsScheduleText text.now s) }
    ensures many { IfOk result (λ s. length s.events < 2 ^ 32) }
    ensures err { IfErr result (λ f. IsFaultOf text.now f) }
{
    let Some((size, seats, first)) = first_line(text) else {
        return Err(ScheduleFault::Line(1));
    };
    let mut rest = first;
    let mut line = 1;
    let mut events = Items::new(alloc);
    while !rest.is_empty() {
        line += 1;
        let Some((event, behind)) = next_line(rest) else {
            return Err(ScheduleFault::Line(line));
        };
        match events.push(event) {
            Ok(()) => rest = behind,
            Err(NoMemory) => return Err(ScheduleFault::Memory),
        }
    }
    Ok(Schedule {
        size,
        seats,
        events,
    })
}

// The ring's size and seats, and the text behind their line.
fn first_line(text: &[u8]) -> Option<(u32, u32, &[u8])>
    ensures some { IfSome result (λ r. (text.now ≡ ring_line r.0 r.1 ++ (10 ∷ r.2.now)) × IsRing r.0 r.1) }
    ensures none { IfNone result ((size seats : ℕ) (behind : List ℕ) → IsRing size seats → text.now ≢ ring_line size seats ++ (10 ∷ behind)) }
{
    let (line, behind) = cut(text, b'\n')?;
    let (size, seats) = ring(line)?;
    Some((size, seats, behind))
}

// The next event, and the text behind its line.
fn next_line(text: &[u8]) -> Option<(Event, &[u8])>
    ensures some { IfSome result (λ r. (text.now ≡ event_line r.0 ++ (10 ∷ r.1.now)) × IsEvent r.0) }
    ensures none { IfNone result ((e : Event) (behind : List ℕ) → IsEvent e → text.now ≢ event_line e ++ (10 ∷ behind)) }
{
    let (line, behind) = cut(text, b'\n')?;
    let event = event(line)?;
    Some((event, behind))
}
