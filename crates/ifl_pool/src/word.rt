//! The word, which holds how many clusters are in the pool.
ghost use Rattle.std.specs.Prelude.{◌≡◌, ◌≤◌, [], IfOk};
ghost use Rattle.std.specs.Bool.{OnTrue, OnFalse};
ghost use Rattle.ifl_pool.specs.declared.history.Event.TheVariants.{Take, Give, Empty};
ghost use Rattle.ifl_pool.specs.Passes.{IsPass, Did, OnlySaw, Joined, IsNewTo};
ghost use Rattle.ifl_pool.specs.Ledger.{first_view, view_after_split, view_split_off};
ghost use Rattle.ifl_pool.specs.Pools.{IsLastCount};
ghost use Rattle.ifl_pool.specs.Word.{IsSameSeat};

use crate::history::Entry;
use crate::known::Known;
use crate::steps::{Finds, Gives, Halves, Joins, Looks, Spares, Takes};
use atomic_table::{Seat, Table, TableRule};
use crossbeam_utils::Backoff;
use ifl_base::{NoMemory, PART};
use std::alloc::Global;
use std::collections::LinkedList;
use std::marker::Model;
use std::sync::Wait;

/// What the rule of the word sees of a pass. No value of it is made.
pub struct View {
    /// The size of the pool.
    pub size: u64,
    pub known: Known,
    /// The pass may name new passes by the numbers that leave its own as the remainder by this.
    pub stride: u64,
    /// What a pass that was joined to this one had seen, until the next step tells it to this one.
    pub heard: LinkedList<Entry>,
}

/// The rule of the word.
pub struct WordRule;

impl TableRule<u64, View, u32> for WordRule {
    ghost use Rattle.ifl_pool.specs.Word.{IsCount};
    ghost use Rattle.ifl_pool.specs.Ledger.{first_view};

    ghost holds = { IsCount };

    ghost first = { first_view };
}

/// The number of clusters in a pool of `size`.
#[derive(Drop)]
pub struct Word {
    table: Table<u64, View, u32, WordRule, Global>,
    size: u32,
}

impl Model for Word {
    ghost use Rattle.std.specs.Prelude.{◌≡◌, ◌≤◌};
    ghost use Rattle.ifl_pool.specs.Word.{WordId};

    ghost Value = { WordId };

    ghost view = { λ w. record { table = w.table.shared.table_id; size = w.size } };

    ghost invariant = { λ w. (w.table.shared.table_id.words ≡ 1) × (w.table.shared.table_id.slots ≡ 0) × (w.table.shared.key ≡ w.size) };
}

impl Word {
    /// The word of a full pool, and the seat of its first pass.
    pub fn new(alloc: Global, size: u32) -> Result<(Word, Seat<u64, View>), NoMemory>
        ensures word { IfOk result (λ t. t.0.size ≡ size) }
        ensures seat { IfOk result (λ t. (t.1.table_id ≡ t.0.table) × (t.1.me ≡ (first_view size, []))) }
    {
        let (table, seat) = Table::of_words(alloc, &[size as u64], &size)?;
        Ok((Word { table, size }, seat))
    }

    /// The size of the pool.
    pub fn size(&self) -> u32
        ensures { result ≡ self.now.size }
    {
        self.size
    }

    /// One fewer, or false where a step of this call found 0.
    pub fn take_one<R: Wait>(&self, rt: &R, seat: &mut Seat<u64, View>) -> bool
        requires own { seat.old.table_id ≡ self.now.table }
        requires pass { IsPass seat.old.me.0.size seat.old.me.0.known }
        ensures own { IsSameSeat seat.old seat.new }
        ensures pass { IsPass seat.new.me.0.size seat.new.me.0.known }
        ensures taken { OnTrue result (Did Take seat.old.me.0.known seat.new.me.0.known) }
        ensures empty { OnFalse result (Did Empty seat.old.me.0.known seat.new.me.0.known) }
    {
        let backoff = Backoff::new();
        let mut found = self.table.shared.load::<Finds>(seat, 0);
        for _ in rt.forever() {
            if found == 0 {
                return false;
            }
            let seen = self
                .table
                .shared
                .compare_exchange::<Takes>(seat, 0, found, found - 1);
            if seen == found {
                return true;
            }
            found = seen;
            backoff.spin();
        }
        unreachable!()
    }

    /// One more, once the word is below the size of the pool.
    pub fn give_one<R: Wait>(&self, rt: &R, seat: &mut Seat<u64, View>)
        requires own { seat.old.table_id ≡ self.now.table }
        requires pass { IsPass seat.old.me.0.size seat.old.me.0.known }
        ensures own { IsSameSeat seat.old seat.new }
        ensures pass { IsPass seat.new.me.0.size seat.new.me.0.known }
        ensures given { Did Give seat.old.me.0.known seat.new.me.0.known }
    {
        let backoff = Backoff::new();
        for _ in rt.forever() {
            if self.try_give_one(seat) {
                return;
            }
            backoff.snooze();
        }
        unreachable!()
    }

    // One attempt, which fails where the word is the size of the pool, and where another thread changes it.
    fn try_give_one(&self, seat: &mut Seat<u64, View>) -> bool
        requires own { seat.old.table_id ≡ self.now.table }
        requires pass { IsPass seat.old.me.0.size seat.old.me.0.known }
        ensures own { IsSameSeat seat.old seat.new }
        ensures pass { IsPass seat.new.me.0.size seat.new.me.0.known }
        ensures given { OnTrue result (Did Give seat.old.me.0.known seat.new.me.0.known) }
        ensures failed { OnFalse result (OnlySaw seat.old.me.0.known seat.new.me.0.known) }
    {
        let found = self.table.shared.load::<Looks>(seat, 0);
        if found >= self.size as u64 {
            return false;
        }
        let seen = self
            .table
            .shared
            .compare_exchange::<Gives>(seat, 0, found, found + 1);
        seen == found
    }

    /// A seat for a new pass.
    pub fn split(&self, seat: &mut Seat<u64, View>) -> Seat<u64, View>
        requires own { seat.old.table_id ≡ self.now.table }
        requires part { 2 ≤ seat.old.me.0.known.part }
        ensures own { (seat.new.table_id ≡ seat.old.table_id) × (result.table_id ≡ seat.old.table_id) }
        ensures left { seat.new.me ≡ (view_after_split seat.old.me.0, seat.old.me.1) }
        ensures right { result.me ≡ (view_split_off seat.old.me.0, []) }
        ensures fresh { IsNewTo seat.old.me.0.known result.me.0.known.number }
    {
        self.table.shared.load::<Spares>(seat, 0);
        self.table.shared.split_seat::<Halves>(seat)
    }

    /// The seat stands for both passes, and has seen what either had.
    pub fn join(&self, seat: &mut Seat<u64, View>, other: Seat<u64, View>)
        requires own { (seat.old.table_id ≡ self.now.table) × (other.table_id ≡ self.now.table) }
        requires slots { other.me.1 ≡ [] }
        requires pass { IsPass seat.old.me.0.size seat.old.me.0.known }
        ensures own { IsSameSeat seat.old seat.new }
        ensures pass { IsPass seat.new.me.0.size seat.new.me.0.known }
        ensures both { Joined seat.old.me.0.known other.me.0.known seat.new.me.0.known }
    {
        self.table.shared.join_seat::<Joins>(seat, other);
        self.table.shared.load::<Looks>(seat, 0);
    }

    /// What the word holds at the end, which the whole pass has counted.
    pub fn close(self, seat: Seat<u64, View>) -> u64
        requires own { (seat.table_id ≡ self.table) × (seat.me.0.size ≡ self.size) }
        requires pass { IsPass seat.me.0.size seat.me.0.known }
        requires whole { seat.me.0.known.part ≡ PART }
        ensures { IsLastCount self.size seat.me.0.known result }
    {
        let Word { table, size: _ } = self;
        let words = table.close_with(seat);
        let count = words.word(0);
        words.free();
        count
    }
}
