//! The order record as it grows.
ghost use Rattle.std.specs.Prelude.{◌^◌, true, false, IfSome, IfNone, ◌<◌, ◌≡◌, ◌≤◌, [], length, map, sum, IfOk};
ghost use Rattle.ifl_txq.specs.Log.{FitsIn, fate_or, is_listed, after_note, after_settle, AreTold, IsTold, kept};
ghost use Rattle.ifl_txq.specs.Tables.{place_of};
ghost use Rattle.ifl_txq.specs.Tallies.{tally_of, IsBalanced};

use crate::line::{Line, OrderLine};
use crate::tally::Tally;
use ifl_base::{Fate, NoMemory, Ticket};
use std::alloc::Global;
use std::marker::Model;

/// Which packets were taken, in order, and what became of each.
///
/// It has room for all tickets of the senders with which it was made, and no call but `new` takes memory.
#[derive(Drop)]
pub struct Log {
    // How many tickets each sender has.
    counts: Vec<u32>,
    // For each ticket one more than the number of its line, or 0: those of the first sender first.
    places: Vec<u32>,
    lines: Vec<Line>,
    // Empty, with room for all lines, which `into_lines` needs.
    room: Vec<OrderLine>,
}

impl Model for Log {
    ghost use Rattle.ifl_txq.specs.Log.{LogSees};

    ghost Value = { LogSees };

    ghost use Rattle.std.specs.Prelude.{vec_capacity};
    ghost use Rattle.ifl_txq.specs.Tables.{IsLog};

    ghost view = { λ g. record { counts = g.counts.items; lines = g.lines.items } };

    ghost invariant = { λ g. IsLog g.counts.items g.places.items g.lines.items g.room.items (vec_capacity g.lines) (vec_capacity g.room) };
}

// How many tickets there are of these senders.
fn total(counts: &[u32]) -> u32
    requires { sum counts.now < 2 ^ 32 }
    ensures { result ≡ sum counts.now }
{
    counts.iter().sum()
}

// A line that has its fate, as the order record has it.
fn told(line: &Line) -> OrderLine
    requires { IsTold line.now }
    ensures { kept result ≡ line.now }
{
    match line.fate {
        Some(fate) => OrderLine {
            ticket: line.ticket,
            fate,
        },
        None => unreachable!(),
    }
}

// A fate stays.
fn first_fate(was: Option<Fate>, fate: Fate) -> Option<Fate>
    ensures { result ≡ fate_or was fate }
{
    match was {
        None => Some(fate),
        Some(fate) => Some(fate),
    }
}

impl Log {
    /// An empty log for at most 16 senders, with tables for as many tickets of each, 1,000,000 in all at most.
    pub fn new(alloc: Global, counts: &[u32]) -> Result<Log, NoMemory>
        requires few { length counts.now ≤ 16 }
        requires all { sum counts.now ≤ 1000000 }
        ensures { IfOk result (λ g. g ≡ record { counts = counts.now; lines = [] }) }
    {
        let total = total(counts);
        let counts = counts.to_vec(alloc)?;
        let places = vec![in alloc; 0u32; total as usize]?;
        let lines = Vec::with_capacity(alloc, total as usize)?;
        let room = Vec::with_capacity(alloc, total as usize)?;
        Ok(Log {
            counts,
            places,
            lines,
            room,
        })
    }

    // Where the table has the ticket, or nothing where it lies outside.
    fn place(&self, t: Ticket) -> Option<usize>
        ensures inside { IfSome result (λ j. (is_listed self.now.counts t ≡ true) × (j ≡ place_of self.now.counts t) × (j < sum self.now.counts)) }
        ensures outside { IfNone result (is_listed self.now.counts t ≡ false) }
    {
        let sender = t.sender as usize;
        if self.counts.len() <= sender || self.counts[sender] <= t.index {
            return None;
        }
        let before = total(&self.counts[..sender]);
        Some(before as usize + t.index as usize)
    }

    /// The ticket is next in the order, without a fate. A ticket that has a line already, or that lies outside the
    /// tables, changes nothing.
    pub fn note(&mut self, t: Ticket)
        ensures log { self.new ≡ after_note t self.old }
        ensures ticket { FitsIn t }
    {
        let Some(place) = self.place(t) else {
            return;
        };
        if self.places[place] == 0 {
            self.lines.push_reserved(Line {
                ticket: t,
                fate: None,
            });
            self.places[place] = self.lines.len() as u32;
        }
    }

    /// The line of the ticket gets its fate. A ticket that has no line, or has a fate already, changes nothing.
    pub fn settle(&mut self, t: Ticket, fate: Fate)
        ensures { self.new ≡ after_settle t fate self.old }
    {
        let Some(place) = self.place(t) else {
            return;
        };
        let number = self.places[place] as usize;
        if number == 0 {
            return;
        }
        let line = &mut self.lines[number - 1];
        line.fate = first_fate(line.fate, fate);
    }

    /// How many packets it has noted, by their fates.
    pub(crate) fn tally(&self) -> Tally
        ensures value { result ≡ tally_of self.now.lines }
        ensures balanced { IsBalanced result }
    {
        let mut tally = Tally::NOTHING;
        for line in &self.lines {
            tally = tally.plus(line.fate);
        }
        tally
    }

    /// The lines in order, once each has a fate.
    pub fn into_lines(self) -> Vec<OrderLine>
        requires { AreTold self.lines }
        ensures { map kept result.items ≡ self.lines }
    {
        let Log {
            counts: _,
            places: _,
            lines,
            mut room,
        } = self;
        for line in &lines {
            room.push_reserved(told(line));
        }
        room
    }
}
