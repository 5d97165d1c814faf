//! With what a queue was made.
use crate::log::Log;
use ifl_desc::{DriverSide, Port};
use ifl_pool::{Pool, PoolPass};
use std::marker::Model;
use std::snapshot::Snapshot;

/// With what a queue was made. No value of it is made.
pub struct QueueOrigin<R: DriverSide> {
    ring: Snapshot<R>,
    port: Snapshot<Port>,
    pool: Snapshot<Pool>,
    pass: Snapshot<PoolPass>,
    max_segs: u32,
    doorbell_every: u32,
    log: Snapshot<Log>,
}

impl<R: DriverSide> Model for QueueOrigin<R> {
    ghost use Rattle.ifl_txq.specs.Queue.{Origin};

    ghost Value = { Origin };

    ghost view = { λ o. record { ring = R.ring o.ring.value; port = o.port.value; pool = o.pool.value; part = o.pass.value.known.part; max_segs = o.max_segs; doorbell_every = o.doorbell_every; counts = o.log.value.counts } };
}
