//! What is made for a run before its line.
ghost use Rattle.std.specs.Prelude.{◌≡◌, ◌≤◌, [], length, map, sum, IfOk};
ghost use Rattle.ifl_desc.specs.Ends.{IsNewDevice, IsNewDriver};
ghost use Rattle.ifl_desc.specs.Port.{reader_of, writer_of};
ghost use Rattle.ifl_pcap.specs.File.{written};
ghost use Rattle.ifl_line.specs.Passes.{ArePasses};
ghost use Rattle.ifl_line.specs.Works.{AreFew, files_of};

use crate::sizes::Sizes;
use ifl_base::NoMemory;
use ifl_desc::{DescRing, Port, PortReader, PortWriter};
use ifl_device::WireBuffer;
use ifl_pcap::Capture;
use ifl_pool::{Pool, PoolPass};
use ifl_txq::Log;
use std::alloc::Global;
use std::sync::Wait;

/// What the queue and the engine of a run belong to: the descriptor ring, the port and the pool.
#[derive(Drop)]
pub struct Plan<R: DescRing> {
    pub(crate) ring: R,
    pub(crate) port: Port,
    pub(crate) pool: Pool,
}

/// The ends and the room that a line is made with.
#[derive(Drop)]
pub struct Tokens<R: DescRing> {
    /// The queue's end of the descriptor ring.
    pub(crate) driver: R::Driver,
    /// The engine's end of it.
    pub(crate) device: R::Device,
    /// The queue's end of the port.
    pub(crate) reader: PortReader,
    /// The engine's end of it.
    pub(crate) writer: PortWriter,
    /// The queue's pass of the pool.
    pub(crate) queue_pass: PoolPass,
    /// The senders' pass of it.
    pub(crate) pass: PoolPass,
    /// The order record, with room for all frames.
    pub(crate) log: Log,
    /// The wire, with room for all frames.
    pub(crate) wire: WireBuffer,
}

// How many frames each capture has.
fn counts_of(alloc: Global, captures: &[Capture]) -> Result<Vec<u32>, NoMemory>
    requires { AreFew captures.now }
    ensures { IfOk result (λ v. v.items ≡ map length (files_of captures.now)) }
{
    let mut counts = Vec::with_capacity(alloc, captures.len())?;
    for capture in captures {
        counts.push_reserved(capture.len() as u32);
    }
    Ok(counts)
}

// The bytes of the records of all frames of a capture.
fn records_len(capture: &Capture) -> u64 {
    let mut len = 0u64;
    for index in 0..capture.len() {
        let record = (capture.frame(index).len() as u64).saturating_add(16);
        len = len.saturating_add(record);
    }
    len
}

// Those of all captures.
fn wire_room(captures: &[Capture]) -> u64 {
    let mut room = 0u64;
    for capture in captures {
        room = room.saturating_add(records_len(capture));
    }
    room
}

/// Makes what the queue and the engine of a run belong to, and the ends and the room that its line is made with.
///
/// The queue's pass and the senders' pass are the halves of the pool's.
pub fn fit_out<R: DescRing, W: Wait>(
    rt: &W,
    alloc: Global,
    sizes: Sizes,
    captures: &[Capture],
) -> Result<(Plan<R>, Tokens<R>), NoMemory>
    requires few { (length captures.now ≤ 16) × AreFew captures.now }
    requires all { sum (map length (files_of captures.now)) ≤ 1000000 }
    ensures sizes { IfOk result (λ p. ((R.ring p.0.ring).slots ≡ sizes.descriptors) × (p.0.pool.size ≡ sizes.clusters)) }
    ensures ends { IfOk result (λ p. IsNewDriver (R.ring p.0.ring) (R.driver_sees p.1.driver) × IsNewDevice (R.ring p.0.ring) (R.device_sees p.1.device)) }
    ensures port { IfOk result (λ p. (p.1.reader ≡ reader_of p.0.port []) × (p.1.writer ≡ writer_of p.0.port [])) }
    ensures passes { IfOk result (λ p. ArePasses p.0.pool p.1.queue_pass p.1.pass) }
    ensures log { IfOk result (λ p. p.1.log ≡ record { counts = map length (files_of captures.now); lines = [] }) }
    ensures wire { IfOk result (λ p. p.1.wire.bytes ≡ written []) }
{
    let counts = counts_of(alloc, captures)?;
    let log = Log::new(alloc, &counts)?;
    let wire = WireBuffer::new(alloc, wire_room(captures))?;
    let (port, writer, reader) = Port::new(alloc)?;
    let (ring, driver, device) = match R::make(alloc, sizes.descriptors) {
        Ok(made) => made,
        Err(_) => return Err(NoMemory),
    };
    let (pool, mut pass) = Pool::new(rt, alloc, sizes.clusters)?;
    let queue_pass = pool.split(&mut pass);
    let plan = Plan { ring, port, pool };
    let tokens = Tokens {
        driver,
        device,
        reader,
        writer,
        queue_pass,
        pass,
        log,
        wire,
    };
    Ok((plan, tokens))
}
