//! A sender, who makes packets of the pool's clusters.
ghost use Rattle.std.specs.Prelude.{◌≡◌, ◌-◌, ◌/◌};
ghost use Rattle.ifl_base.specs.declared.limits.TheConstants.{PART};

use super::{packet, ticket};
use crate::Item;
use ifl_base::Ticket;
use ifl_pool::{Pool, PoolPass};
use std::alloc::Global;
use std::collections::VecDeque;
use std::marker::Model;
use std::process::Abort;
use std::sync::Wait;
use std::test::*;

/// How many clusters are in the pool: all are taken out and given back.
fn count_in<W: Wait>(rt: &W, alloc: Global, pool: &Pool, pass: &mut PoolPass) -> Result<usize, Fail>
    requires { pass.old.pool ≡ pool.now }
    ensures { (pass.new.pool ≡ pool.now) × (pass.new.known.part ≡ pass.old.known.part) }
{
    let mut clusters = Vec::new(alloc);
    for _ in 0..1_000 {
        let Some(cluster) = pool.take(rt, pass) else {
            break;
        };
        clusters.push(cluster)?;
    }
    let count = clusters.len();
    for cluster in clusters {
        pool.give(rt, pass, cluster);
    }
    Ok(count)
}

/// A sender with its pass of the pool, and the batch that is offered next. Contracts see the pool.
#[derive(Drop)]
pub struct Sender<'a> {
    pool: &'a Pool,
    pass: PoolPass,
    pub batch: VecDeque<Item>,
}

impl<'a> Model for Sender<'a> {
    ghost use Rattle.std.specs.Prelude.{◌≡◌, ◌-◌, ◌/◌};
    ghost use Rattle.ifl_base.specs.declared.limits.TheConstants.{PART};
    ghost use Rattle.ifl_pool.specs.Pools.{PoolId};

    ghost Value = { PoolId };

    ghost view = { λ s. s.pool.now };

    ghost invariant = { λ s. (s.pass.pool ≡ s.pool.now) × (s.pass.known.part ≡ PART - PART / 2) };
}

impl<'a> Sender<'a> {
    /// A sender with an empty batch.
    pub fn new(alloc: Global, pool: &'a Pool, pass: PoolPass) -> Sender<'a>
        requires own { pass.pool ≡ pool.now }
        requires part { pass.known.part ≡ PART - PART / 2 }
        ensures { result ≡ pool.now }
    {
        Sender {
            pool,
            pass,
            batch: VecDeque::new(alloc),
        }
    }

    /// Lays a packet of so many segments with `len` bytes each into the batch.
    pub fn load<W: Wait + Abort>(
        &mut self,
        rt: &W,
        ticket: Ticket,
        segments: u32,
        len: usize,
    ) -> Result<(), Fail>
        ensures { self.new ≡ self.old }
    {
        let packet = packet(rt, self.pool, &mut self.pass, ticket, segments, len);
        self.batch.push_back(Item::Packet(packet))?;
        Ok(())
    }

    /// Lays packets of one segment with the first sender's tickets from 0 on into the batch.
    pub fn load_many<W: Wait + Abort>(&mut self, rt: &W, count: u32) -> Result<(), Fail>
        ensures { self.new ≡ self.old }
    {
        for index in 0..count {
            self.load(rt, ticket(index), 1, 100)?;
        }
        Ok(())
    }

    /// How many clusters are in the pool.
    pub fn count_in<W: Wait>(&mut self, rt: &W, alloc: Global) -> Result<usize, Fail>
        ensures { self.new ≡ self.old }
    {
        count_in(rt, alloc, self.pool, &mut self.pass)
    }

    /// Its pass of the pool.
    pub fn into_pass(self) -> PoolPass
        ensures own { result.pool ≡ self.entry }
        ensures part { result.known.part ≡ PART - PART / 2 }
    {
        let Sender {
            pool: _,
            pass,
            batch: _,
        } = self;
        pass
    }
}
