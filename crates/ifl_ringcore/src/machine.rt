ghost use Rattle.std.specs.Prelude.{◌≡◌, ◌<◌, ◌≤◌, length, IfOk, OnOk, OnErr, List};
ghost use Rattle.std.specs.Option.{ForSome};
ghost use Rattle.std.specs.Result.{result_err};
ghost use Rattle.ifl_ringcore.specs.declared.history.Meaning.{Meaning};
ghost use Rattle.ifl_ringcore.specs.State.{RingState, first_state};
ghost use Rattle.ifl_ringcore.specs.Effects.{effect};
ghost use Rattle.ifl_ringcore.specs.Events.{seat_of, step_of, items_of};
ghost use Rattle.ifl_ringcore.specs.Table.{conditions, first_failing, sight_of};
ghost use Rattle.ifl_ringcore.specs.Residues.{sight_in, drain_by, known_from, unspent, is_held_at, ends_restart, stays_stalled, is_fruitful, rise_in, Fits, made_in, reserved_in, published_in, elected_in, raised_in, advanced_in, left_in, gone_on};
ghost use Rattle.ifl_ringcore.specs.Kept.{Kept, IsSound, StandsFor, held_by, count_in};
ghost use Rattle.ifl_ringcore.specs.Counters.{nothing_counted, one_if, plus, capped, rise};

use crate::counters::Counters;
use crate::event::Event;
use crate::illegal::Illegal;
use crate::kept::{Drain, Held};
use crate::sight::Sight;
use crate::words::distance;
use ifl_base::{Flag, NoMemory, RingWord, advance, space};
use std::alloc::Global;
use std::marker::Model;

/// A ring without slots and without threads: it takes events one after another.
#[derive(Drop)]
pub struct Machine {
    size: u32,
    seats: u32,
    word: RingWord,
    held: Vec<Option<Held>>,
    drain: Option<Drain>,
    counters: Counters,
}

impl Model for Machine {
    ghost use Rattle.ifl_ringcore.specs.Kept.{Kept, IsSound};

    ghost Value = { Kept };

    ghost view = { λ m. record { size = m.size; seats = m.seats; word = m.word; held = m.held.items; drain = m.drain; counters = m.counters } };

    ghost invariant = { λ m. IsSound record { size = m.size; seats = m.seats; word = m.word; held = m.held.items; drain = m.drain; counters = m.counters } };
}

impl Machine {
    /// A ring of `size` places, 4 to 65,536, for seats whose numbers are below `seats`, 1 to 65,535.
    ///
    /// Nothing is reserved, published or released yet, and nobody consumes. It takes the memory for one
    /// reservation a seat, and `apply` takes none.
    pub fn new(alloc: Global, size: u32, seats: u32) -> Result<Machine, NoMemory>
        requires size { (4 ≤ size) × (size ≤ 65536) }
        requires seats { (1 ≤ seats) × (seats ≤ 65535) }
        ensures first { IfOk result (λ m. StandsFor m first_state) }
        ensures made { IfOk result (λ m. (m.size ≡ size) × (m.seats ≡ seats) × (m.counters ≡ nothing_counted)) }
    {
        let held = vec![in alloc; None; seats as usize]?;
        Ok(Machine {
            size,
            seats,
            word: RingWord {
                head: 0,
                tail: 0,
                cidx: 0,
                flag: Flag::Idle,
            },
            held,
            drain: None,
            counters: Counters::NOTHING,
        })
    }

    /// Makes an event, where all of its conditions hold. Else it names the first that fails, and nothing changes.
    ///
    /// What it says holds of each state for which the machine stands.
    pub fn apply(&mut self, e: &Event) -> Result<(), Illegal>
        ensures decides { (st : RingState) → StandsFor self.old st → result_err result ≡ first_failing (conditions (sight_of self.old.size self.old.seats st (seat_of e.now)) e.now) }
        ensures made { (st : RingState) (items : List Meaning) → StandsFor self.old st → length items ≡ items_of st e.now → OnOk result (StandsFor self.new (effect st (seat_of e.now) (step_of items e.now))) }
        ensures counted { (st : RingState) (items : List Meaning) → StandsFor self.old st → length items ≡ items_of st e.now → OnOk result (self.new.counters ≡ capped (plus self.old.counters (rise st (step_of items e.now)))) }
        ensures same { (self.new.size ≡ self.old.size) × (self.new.seats ≡ self.old.seats) }
        ensures unchanged { OnErr result (self.new ≡ self.old) }
    {
        if let Some(condition) = self.sight(e.seat()).refusal(e) {
            return Err(condition);
        }
        self.counters = self.counters.plus(&self.rise(e));
        self.make(e);
        Ok(())
    }

    /// The numbers modulo the size, and the flag.
    pub fn word(&self) -> RingWord
        ensures { result ≡ self.now.word }
    {
        self.word
    }

    /// What the events applied so far count.
    pub fn counters(&self) -> Counters
        ensures { result ≡ self.now.counters }
    {
        self.counters
    }

    fn make(&mut self, e: &Event)
        requires { Fits self.old e.now }
        ensures { self.new ≡ made_in self.old e.now }
    {
        match *e {
            Event::Look { .. } => {}
            Event::Refuse { .. } => {}
            Event::Reserve { seat, n } => self.reserve(seat, n),
            Event::Behind { seat } => self.publish(seat),
            Event::Elected { seat, budget } => {
                self.publish(seat);
                self.elect(seat, budget);
            }
            Event::Abdicating { seat } => {
                self.publish(seat);
                self.raise();
            }
            Event::Advance { n, .. } => self.go_on(n),
            Event::LeaveIdle { n, .. } => self.leave(n, Flag::Idle),
            Event::LeaveAbdicated { n, .. } => self.leave(n, Flag::Abdicated),
            Event::Stall { n, .. } => self.leave(n, Flag::Stalled),
            Event::TakeOver { seat, budget } => self.elect(seat, budget),
        }
    }

    // The seat reserves the places from head on.
    fn reserve(&mut self, seat: u32, n: u32)
        requires seat { seat < self.old.seats }
        requires n { n < self.old.size }
        ensures { self.new ≡ reserved_in self.old seat n }
    {
        let start = self.word.head;
        self.held[seat as usize] = Some(Held { start, count: n });
        self.word.head = advance(self.size, start, n);
    }

    // The seat's reservation is published.
    fn publish(&mut self, seat: u32)
        requires { seat < self.old.seats }
        ensures { self.new ≡ published_in self.old seat }
    {
        let count = count_in(self.held[seat as usize]);
        self.held[seat as usize] = None;
        self.word.tail = advance(self.size, self.word.tail, count);
    }

    // The seat becomes the consumer.
    fn elect(&mut self, seat: u32, budget: u32)
        ensures { self.new ≡ elected_in self.old seat budget }
    {
        self.drain = Some(Drain {
            seat,
            known: self.word.tail,
            total: 0,
            budget,
            from: self.word.flag,
        });
        self.word.flag = Flag::Busy;
    }

    // Items came that nobody is to consume at once.
    fn raise(&mut self)
        ensures { self.new ≡ raised_in self.old }
    {
        if matches!(self.word.flag, Flag::Idle) {
            self.word.flag = Flag::Abdicated;
        }
    }

    // The consumer shows that it released items, and looks at the tail.
    fn go_on(&mut self, n: u32)
        requires { n < self.old.size }
        ensures { self.new ≡ advanced_in self.old n }
    {
        self.word.cidx = advance(self.size, self.word.cidx, n);
        self.drain = gone_on(n, self.word.tail, self.drain);
    }

    // The consumer shows that it released items, and leaves.
    fn leave(&mut self, n: u32, flag: Flag)
        requires { n < self.old.size }
        ensures { self.new ≡ left_in self.old n flag }
    {
        self.word.cidx = advance(self.size, self.word.cidx, n);
        self.word.flag = flag;
        self.drain = None;
    }

    fn held_by(&self, seat: u32) -> Option<Held>
        ensures { result ≡ held_by seat self.now.held }
    {
        if (seat as usize) < self.held.len() {
            self.held[seat as usize]
        } else {
            None
        }
    }

    fn drain_by(&self, seat: u32) -> Option<Drain>
        ensures { result ≡ drain_by seat self.now.drain }
    {
        match self.drain {
            Some(drain) if drain.seat == seat => Some(drain),
            _ => None,
        }
    }

    fn sight(&self, seat: u32) -> Sight
        ensures { result ≡ sight_in self.now seat }
    {
        let held = self.held_by(seat);
        let drain = self.drain_by(seat);
        Sight {
            is_seat: seat < self.seats,
            is_consumer: drain.is_some(),
            has_reservation: held.is_some(),
            is_turn: is_held_at(self.word.tail, held),
            is_quiet: self.word.tail == self.word.head,
            flag: self.word.flag,
            room: space(self.size, &self.word),
            waiting: distance(self.size, self.word.cidx, self.word.tail),
            known: known_from(self.size, self.word.cidx, drain),
            budget_left: unspent(drain),
        }
    }

    // What the event counts.
    fn rise(&self, e: &Event) -> Counters
        ensures { result ≡ rise_in self.now e.now }
    {
        match *e {
            Event::Refuse { n, .. } => Counters {
                drops: n as u64,
                ..Counters::NOTHING
            },
            Event::Behind { seat } => self.enqueues(seat),
            Event::Elected { seat, .. } => Counters {
                starts: matches!(self.word.flag, Flag::Idle) as u64,
                ..self.enqueues(seat)
            },
            Event::Abdicating { seat } => self.enqueues(seat),
            Event::LeaveIdle { n, .. } => self.restarts(n),
            Event::LeaveAbdicated { n, .. } => Counters {
                abdications: 1,
                ..self.restarts(n)
            },
            Event::Stall { n, .. } => Counters {
                stalls: !stays_stalled(n, self.drain) as u64,
                ..self.restarts(n)
            },
            _ => Counters::NOTHING,
        }
    }

    fn enqueues(&self, seat: u32) -> Counters
        ensures { result ≡ record nothing_counted { enqueues = count_in (held_by seat self.now.held) } }
    {
        Counters {
            enqueues: count_in(self.held_by(seat)) as u64,
            ..Counters::NOTHING
        }
    }

    fn restarts(&self, n: u32) -> Counters
        ensures { result ≡ record nothing_counted { restarts = one_if (ends_restart n self.now.drain) } }
    {
        Counters {
            restarts: ends_restart(n, self.drain) as u64,
            ..Counters::NOTHING
        }
    }
}

fn is_held_at(tail: u16, held: Option<Held>) -> bool
    ensures { result ≡ is_held_at tail held }
{
    match held {
        Some(held) => held.start == tail,
        None => false,
    }
}

fn unspent(drain: Option<Drain>) -> u32
    ensures { result ≡ unspent drain }
{
    match drain {
        Some(drain) => (drain.budget as u64).saturating_sub(drain.total) as u32,
        None => 0,
    }
}

fn known_from(size: u32, cidx: u16, drain: Option<Drain>) -> u32
    requires { (cidx < size) × (size ≤ 65536) × ForSome drain (λ d. d.known < size) }
    ensures { result ≡ known_from size cidx drain }
{
    match drain {
        Some(drain) => distance(size, cidx, drain.known),
        None => 0,
    }
}

fn count_in(held: Option<Held>) -> u32
    ensures { result ≡ count_in held }
{
    match held {
        Some(held) => held.count,
        None => 0,
    }
}

// The drain began on a stalled ring, and consumed something with these last items.
fn ends_restart(n: u32, drain: Option<Drain>) -> bool
    ensures { result ≡ ends_restart n drain }
{
    match drain {
        Some(drain) => matches!(drain.from, Flag::Stalled) && is_fruitful(n, &drain),
        None => false,
    }
}

// The drain began on a stalled ring, and consumed nothing.
fn stays_stalled(n: u32, drain: Option<Drain>) -> bool
    ensures { result ≡ stays_stalled n drain }
{
    match drain {
        Some(drain) => matches!(drain.from, Flag::Stalled) && !is_fruitful(n, &drain),
        None => false,
    }
}

fn is_fruitful(n: u32, drain: &Drain) -> bool
    ensures { result ≡ is_fruitful n drain.now }
{
    n != 0 || drain.total != 0
}

fn gone_on(n: u32, tail: u16, drain: Option<Drain>) -> Option<Drain>
    ensures { result ≡ gone_on n tail drain }
{
    match drain {
        Some(drain) => Some(Drain {
            known: tail,
            total: drain.total.saturating_add(n as u64),
            ..drain
        }),
        None => None,
    }
}
