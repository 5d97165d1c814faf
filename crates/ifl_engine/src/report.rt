use ifl_base::Items;
use ifl_generation::{GenerationClosed, GenerationDevice, GenerationDriver, GenerationRing};
use ifl_legacy::{LegacyClosed, LegacyDevice, LegacyDriver, LegacyRing};
use ifl_line::AwayLine;
use ifl_pool::ClosedPool;
use ifl_ring::ClosedRing;
use ifl_ringcore::Counters;
use ifl_txq::{Item, OrderLine, QueueOrigin};
use ifl_writeback::{WritebackClosed, WritebackDevice, WritebackDriver, WritebackRing};
use std::marker::PhantomData;

/// How many frames there were, and how many lines of each kind.
#[derive(Clone, Copy, Debug)]
pub struct Plain {
    /// All records of the captures.
    pub frames: u64,
    /// Frames on the wire.
    pub wire: u64,
    /// The bytes of the frames on the wire, without record headers.
    pub wire_bytes: u64,
    pub runt: u64,
    pub oversize: u64,
    pub no_buffers: u64,
    pub no_clusters: u64,
    pub too_many_segments: u64,
    pub reset: u64,
    pub flush: u64,
}

/// The ring of a run and the descriptor ring of its adapter, closed.
#[derive(Drop)]
pub enum ClosedLine {
    /// Over a legacy adapter.
    Legacy(
        ClosedRing<Item, QueueOrigin<LegacyRing>>,
        LegacyClosed,
        PhantomData<(LegacyDriver, LegacyDevice)>,
    ),
    /// Over a writeback adapter.
    Writeback(
        ClosedRing<Item, QueueOrigin<WritebackRing>>,
        WritebackClosed,
        PhantomData<(WritebackDriver, WritebackDevice)>,
    ),
    /// Over a generation adapter.
    Generation(
        ClosedRing<Item, QueueOrigin<GenerationRing>>,
        GenerationClosed,
        PhantomData<(GenerationDriver, GenerationDevice)>,
    ),
}

/// What became of every frame of a run.
#[derive(Drop)]
pub struct Report {
    /// The accepted frames, in the order in which the ring took them, each with its fate.
    pub order: Items<OrderLine>,
    /// The other frames, in the order of sender and index.
    pub away: Items<AwayLine>,
    /// The wire capture, as the file holds it.
    pub wire: Items<u8>,
    pub plain: Plain,
    /// What the ring counted.
    pub ring: Counters,
    /// The ring and the descriptor ring.
    pub closed: ClosedLine,
    /// The pool, with all its clusters.
    pub pool: ClosedPool,
}

/// How a run ended.
#[derive(Drop)]
pub struct Finished {
    /// The exit status of the program.
    pub status: u8,
    /// What became of every frame, where the frames were sent.
    pub report: Option<Report>,
}
