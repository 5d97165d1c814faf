//! What is left of a line, apart from what its queue and its engine belonged to.
ghost use Rattle.std.specs.Prelude.{◌≡◌, []};
ghost use Rattle.ifl_desc.specs.Ends.{posted};
ghost use Rattle.ifl_desc.specs.Port.{all_set};
ghost use Rattle.ifl_txq.specs.Queue.{IsRung};

use crate::ending::Ends;
use ifl_desc::{DescRing, PortReader, PortWriter};
use ifl_pool::PoolPass;
use ifl_ring::ClosedRing;
use ifl_ringcore::Counters;
use ifl_txq::{Item, Log, QueueOrigin, TxqEnds};

/// What is left of a line, apart from what its queue and its engine belonged to.
#[derive(Drop)]
pub struct Remains<R: DescRing> {
    pub(crate) ring: ClosedRing<Item, QueueOrigin<R>>,
    pub(crate) counters: Counters,
    pub(crate) driver: R::Driver,
    pub(crate) reader: PortReader,
    pub(crate) queue_pass: PoolPass,
    pub(crate) log: Log,
    pub(crate) device: R::Device,
    pub(crate) writer: PortWriter,
    pub(crate) wire: Vec<u8>,
    pub(crate) pass: PoolPass,
}

/// Takes the ends of a line apart: the queue has all back that it posted, and the engine holds nothing.
pub(crate) fn take_apart<'a, R: DescRing>(ends: Ends<'a, R>) -> Remains<R>
    requires queue { IsRung ends.queue.driver × (posted ends.queue.driver ≡ ends.queue.driver.back) }
    requires engine { ends.engine.held ≡ [] }
    ensures ring { (result.ring ≡ ends.entry.ring) × (result.counters ≡ ends.entry.counters) }
    ensures queue { (R.driver_sees result.driver ≡ ends.entry.queue.driver) × (result.reader ≡ ends.entry.queue.reader) × (result.queue_pass ≡ ends.entry.queue.pass) × (result.log ≡ ends.entry.queue.log) }
    ensures engine { (R.device_sees result.device ≡ ends.entry.engine.device) × (all_set result.writer ≡ ends.entry.engine.writer) × (result.wire.items ≡ ends.entry.engine.wire.bytes) }
    ensures pass { result.pass ≡ ends.entry.pass }
{
    let Ends {
        ring,
        counters,
        queue,
        engine,
        pass,
    } = ends;
    let TxqEnds {
        driver,
        reader,
        pass: queue_pass,
        log,
    } = queue.close();
    let (device, writer, wire) = engine.close();
    Remains {
        ring,
        counters,
        driver,
        reader,
        queue_pass,
        log,
        device,
        writer,
        wire,
        pass,
    }
}
