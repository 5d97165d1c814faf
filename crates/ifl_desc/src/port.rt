//! A port, on which one end sets a state that the other looks at.
ghost use Rattle.std.specs.Prelude.{◌≡◌, ◌+◌, List, [], ◌∷◌, ◌++◌, Some, IfOk};
ghost use mathlib.Core.List.{IsPrefix};
ghost use Rattle.ifl_desc.specs.declared.port.PortState.{PortState as Which};
ghost use Rattle.ifl_desc.specs.declared.signals.PortEvent.{PortEvent};
ghost use Rattle.ifl_desc.specs.Port.{code_of, state_of, MayFollow, IsSetting, IsPortHistory, IsHistoryOf, SetsNext, FindsNext, writer_of, reader_of};

use crate::signals::{Finds, Opens, PortRule, PortView, Shuts, Stores};
use atomic_table::{Seat, Table};
use ifl_base::NoMemory;
use std::alloc::Global;
use std::marker::Model;

/// The state of a port.
#[derive(Clone, Copy, Debug, PartialEq, Eq)]
pub enum PortState {
    /// The link is there.
    Up,
    /// The link is lost.
    Down,
    /// The adapter is being stopped, for good.
    Flush,
}

impl PortState {
    /// The word of a state: 0, 1 or 2.
    fn code(self) -> u64
        ensures { result ≡ code_of self }
    {
        match self {
            PortState::Up => 0,
            PortState::Down => 1,
            PortState::Flush => 2,
        }
    }

    /// The state that has the word.
    fn of_code(word: u64) -> PortState
        ensures { (s : Which) → word ≡ code_of s → result ≡ s }
    {
        match word {
            0 => PortState::Up,
            1 => PortState::Down,
            _ => PortState::Flush,
        }
    }
}

/// One word, on which the writer sets a state and at which the reader looks, in two threads. It begins with Up.
#[derive(Drop)]
pub struct Port {
    table: Table<u64, PortView, u32, PortRule, Global>,
}

impl Model for Port {
    ghost use Rattle.std.specs.Prelude.{◌≡◌};
    ghost use Rattle.atomic_table.specs.Seated.{TableId};

    ghost Value = { TableId };

    ghost view = { λ p. p.table.shared.table_id };

    ghost invariant = { λ p. (p.table.shared.table_id.words ≡ 1) × (p.table.shared.table_id.slots ≡ 0) };
}

/// The end that sets. It knows all that was set, and how its stores stand among the looks.
#[derive(Drop)]
pub struct PortWriter {
    seat: Seat<u64, PortView>,
}

impl Model for PortWriter {
    ghost use Rattle.std.specs.Prelude.{◌≡◌, []};
    ghost use Rattle.ifl_desc.specs.Port.{WriterSees, IsPortHistory, writer_of, writer_view};

    ghost Value = { WriterSees };

    ghost view = { λ w. writer_of w.seat.table_id w.seat.me.0.seen };

    ghost invariant = { λ w. (w.seat.me ≡ (writer_view w.seat.me.0.seen, [])) × IsPortHistory w.seat.me.0.seen };
}

/// The end that looks. It knows a beginning of what was set, how its looks stand among the stores, and how many it
/// made.
#[derive(Drop)]
pub struct PortReader {
    seat: Seat<u64, PortView>,
}

impl Model for PortReader {
    ghost use Rattle.std.specs.Prelude.{◌≡◌, []};
    ghost use Rattle.ifl_desc.specs.Port.{ReaderState, IsPortHistory, reader_of, reader_view};

    ghost Value = { ReaderState };

    ghost view = { λ r. reader_of r.seat.table_id r.seat.me.0.seen };

    ghost invariant = { λ r. (r.seat.me ≡ (reader_view r.seat.me.0.seen, [])) × IsPortHistory r.seat.me.0.seen };
}

impl Port {
    /// A port that is Up, and its ends.
    pub fn new(alloc: Global) -> Result<(Port, PortWriter, PortReader), NoMemory>
        ensures writer { IfOk result (λ t. t.1 ≡ writer_of t.0 []) }
        ensures reader { IfOk result (λ t. t.2 ≡ reader_of t.0 []) }
    {
        let (table, mut seat) = Table::of_words(alloc, &[0], &0)?;
        let other = table.shared.split_seat::<Opens>(&mut seat);
        Ok((
            Port { table },
            PortWriter { seat },
            PortReader { seat: other },
        ))
    }

    /// Sets a state by one store. After Flush nothing but Flush may be set.
    ///
    /// The writer sees all looks that were made before.
    pub fn set(&self, w: &mut PortWriter, s: PortState)
        requires own { w.old.port ≡ self.now }
        requires legal { MayFollow (state_of w.old.known) s }
        ensures set { w.new ≡ record w.old { known = w.old.known ++ s ∷ []; seen = w.new.seen } }
        ensures seen { SetsNext w.old.seen s w.new.seen }
        ensures lawful { IsSetting w.new.known }
        ensures history { IsPortHistory w.new.seen }
    {
        self.table.shared.store::<Stores>(&mut w.seat, 0, s.code());
    }

    /// The last state that was set when this one load was made.
    ///
    /// The reader sees all stores that were made before.
    pub fn look(&self, r: &mut PortReader) -> PortState
        requires own { r.old.port ≡ self.now }
        ensures found { result ≡ state_of r.new.known }
        ensures knows { IsPrefix r.old.known r.new.known }
        ensures counts { r.new ≡ record r.old { known = r.new.known; loads = r.old.loads + 1; found = Some result; seen = r.new.seen } }
        ensures seen { FindsNext r.old.seen result r.new.seen }
        ensures lawful { IsSetting r.new.known }
        ensures history { IsPortHistory r.new.seen }
    {
        PortState::of_code(self.table.shared.load::<Finds>(&mut r.seat, 0))
    }

    /// Ends the port, and answers the last state that was set. What the reader knew is a beginning of what the
    /// writer set.
    ///
    /// What the ends have seen goes together to one history, in which each look found what the last store before it
    /// set: behind what the writer has seen there are looks alone, and behind what the reader has seen stores alone.
    pub fn close(self, w: PortWriter, r: PortReader) -> PortState
        requires own { (w.port ≡ self) × (r.port ≡ self) }
        ensures last { result ≡ state_of w.known }
        ensures knew { IsPrefix r.known w.known }
        ensures lawful { IsSetting w.known }
        ensures history { (log : List PortEvent) × IsHistoryOf w.seen r.seen log }
    {
        let Port { table } = self;
        let PortWriter { mut seat } = w;
        let PortReader { seat: other } = r;
        table.shared.join_seat::<Shuts>(&mut seat, other);
        let closed = table.close_with(seat);
        let word = closed.word(0);
        closed.free();
        PortState::of_code(word)
    }
}
