ghost use Rattle.std.specs.Prelude.{◌≡◌, ◌++◌, codes, IfOk, OnOk};
ghost use Rattle.std.specs.List.{flat_map};
ghost use Rattle.std.specs.String.{string_bytes};
ghost use Rattle.ifl_engine.specs.Texts.{text_line, open_line, field, word_text, count_line, order_line, away_line, order_text_of, plain_text_of, ring_text_of, counter_text_of};

use crate::report::{Plain, Report};
use ifl_base::{Away, Fate, NoMemory, RingWord, Ticket};
use ifl_line::AwayLine;
use ifl_ringcore::Counters;
use ifl_txq::OrderLine;
use std::alloc::Global;
use std::fmt::Write;

/// The bytes that a line of the order text takes, about.
const LINE_ROOM: usize = 16;

/// Appends a ticket and a word, with single spaces between.
#[tactic(auto, unfolding(crate::specs::Texts::text_line))]
fn put_line(out: &mut String, ticket: Ticket, text: &str) -> Result<(), NoMemory>
    ensures { OnOk result (string_bytes out.new ≡ string_bytes out.old ++ text_line ticket.sender ticket.index text.now) }
{
    let sender = ticket.sender;
    let index = ticket.index;
    write!(out, "{sender} {index} {text}\n")?;
    Ok(())
}

/// Appends a name and a number.
#[tactic(auto, unfolding(crate::specs::Texts::count_line))]
fn put_count(out: &mut String, name: &str, n: u64) -> Result<(), NoMemory>
    ensures { OnOk result (string_bytes out.new ≡ string_bytes out.old ++ count_line name.now n) }
{
    write!(out, "{name} {n}\n")?;
    Ok(())
}

fn put_order(out: &mut String, l: &OrderLine) -> Result<(), NoMemory>
    ensures { OnOk result (string_bytes out.new ≡ string_bytes out.old ++ order_line l.now) }
{
    match l.fate {
        Fate::Wire => put_line(out, l.ticket, "wire"),
        Fate::TooManySegments => put_line(out, l.ticket, "too_many_segments"),
        Fate::Reset => put_line(out, l.ticket, "reset"),
        Fate::Flush => put_line(out, l.ticket, "flush"),
    }
}

/// Appends a text.
fn put_text(out: &mut String, text: &str) -> Result<(), NoMemory>
    ensures { OnOk result (string_bytes out.new ≡ string_bytes out.old ++ text.now) }
{
    out.push_str(text)?;
    Ok(())
}

/// Appends a space and a number.
fn put_field(out: &mut String, n: u16) -> Result<(), NoMemory>
    ensures { OnOk result (string_bytes out.new ≡ string_bytes out.old ++ field n) }
{
    write!(out, " {n}")?;
    Ok(())
}

/// Appends a word that was seen: its places and its flag, each behind a space.
fn put_word(out: &mut String, seen: RingWord) -> Result<(), NoMemory>
    ensures { OnOk result (string_bytes out.new ≡ string_bytes out.old ++ word_text seen) }
{
    put_field(out, seen.head)?;
    put_field(out, seen.tail)?;
    put_field(out, seen.cidx)?;
    put_text(out, " ")?;
    put_text(out, seen.flag.name())?;
    Ok(())
}

/// Appends a ticket and a word, with single spaces between, and leaves the line open.
fn put_open(out: &mut String, ticket: Ticket, text: &str) -> Result<(), NoMemory>
    ensures { OnOk result (string_bytes out.new ≡ string_bytes out.old ++ open_line ticket.sender ticket.index text.now) }
{
    let sender = ticket.sender;
    let index = ticket.index;
    write!(out, "{sender} {index} {text}")?;
    Ok(())
}

/// Appends a ticket and the word by which the ring had no room.
fn put_refused(out: &mut String, ticket: Ticket, seen: RingWord) -> Result<(), NoMemory>
    ensures { OnOk result (string_bytes out.new ≡ string_bytes out.old ++ text_line ticket.sender ticket.index (codes "no_buffers" ++ word_text seen)) }
{
    put_open(out, ticket, "no_buffers")?;
    put_word(out, seen)?;
    put_text(out, "\n")?;
    Ok(())
}

fn put_away(out: &mut String, l: &AwayLine) -> Result<(), NoMemory>
    ensures { OnOk result (string_bytes out.new ≡ string_bytes out.old ++ away_line l.now) }
{
    match l.away {
        Away::Runt => put_line(out, l.ticket, "runt"),
        Away::Oversize => put_line(out, l.ticket, "oversize"),
        Away::NoClusters => put_line(out, l.ticket, "no_clusters"),
        Away::NoBuffers(seen) => put_refused(out, l.ticket, seen),
    }
}

fn put_orders(out: &mut String, lines: &[OrderLine]) -> Result<(), NoMemory>
    ensures { OnOk result (string_bytes out.new ≡ string_bytes out.old ++ flat_map order_line lines.now) }
{
    for l in lines {
        put_order(out, l)?;
    }
    Ok(())
}

fn put_aways(out: &mut String, lines: &[AwayLine]) -> Result<(), NoMemory>
    ensures { OnOk result (string_bytes out.new ≡ string_bytes out.old ++ flat_map away_line lines.now) }
{
    for l in lines {
        put_away(out, l)?;
    }
    Ok(())
}

/// The order text of a report: the accepted frames with their fates, and then the others.
pub fn order_text(alloc: Global, r: &Report) -> Result<Vec<u8>, NoMemory>
    ensures { IfOk result (λ v. v.items ≡ order_text_of r.now.order r.now.away) }
{
    let order = r.order.as_slice();
    let away = r.away.as_slice();
    let room = order
        .len()
        .saturating_add(away.len())
        .saturating_mul(LINE_ROOM);
    let mut out = String::with_capacity(alloc, room)?;
    put_count(&mut out, "accepted", order.len() as u64)?;
    put_orders(&mut out, order)?;
    put_count(&mut out, "away", away.len() as u64)?;
    put_aways(&mut out, away)?;
    Ok(out.into_bytes())
}

/// Appends how many lines there are of each kind.
fn put_plain(out: &mut String, plain: Plain) -> Result<(), NoMemory>
    ensures { OnOk result (string_bytes out.new ≡ string_bytes out.old ++ plain_text_of plain) }
{
    put_count(out, "frames", plain.frames)?;
    put_count(out, "wire", plain.wire)?;
    put_count(out, "wire_bytes", plain.wire_bytes)?;
    put_count(out, "runt", plain.runt)?;
    put_count(out, "oversize", plain.oversize)?;
    put_count(out, "no_buffers", plain.no_buffers)?;
    put_count(out, "no_clusters", plain.no_clusters)?;
    put_count(out, "too_many_segments", plain.too_many_segments)?;
    put_count(out, "reset", plain.reset)?;
    put_count(out, "flush", plain.flush)?;
    Ok(())
}

/// Appends what the ring counted.
fn put_ring(out: &mut String, ring: Counters) -> Result<(), NoMemory>
    ensures { OnOk result (string_bytes out.new ≡ string_bytes out.old ++ ring_text_of ring) }
{
    put_count(out, "ring_starts", ring.starts)?;
    put_count(out, "ring_stalls", ring.stalls)?;
    put_count(out, "ring_restarts", ring.restarts)?;
    put_count(out, "ring_abdications", ring.abdications)?;
    put_count(out, "ring_enqueues", ring.enqueues)?;
    put_count(out, "ring_drops", ring.drops)?;
    Ok(())
}

/// The counter text of a report: a line for each counter, those of the ring where they are asked for.
pub fn counter_text(alloc: Global, r: &Report, ring: bool) -> Result<Vec<u8>, NoMemory>
    ensures { IfOk result (λ v. v.items ≡ counter_text_of ring r.now.plain r.now.ring) }
{
    let mut out = String::new(alloc);
    put_plain(&mut out, r.plain)?;
    if ring {
        put_ring(&mut out, r.ring)?;
    }
    Ok(out.into_bytes())
}
