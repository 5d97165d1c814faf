//! A line out of what was made for it.
ghost use Rattle.std.specs.Prelude.{◌≡◌, [], Some, IfOk};
ghost use Rattle.ifl_base.specs.declared.limits.TheConstants.{PART};
ghost use Rattle.ifl_desc.specs.Ends.{IsNewDevice, IsNewDriver};
ghost use Rattle.ifl_desc.specs.Port.{reader_of, writer_of};
ghost use Rattle.ifl_pcap.specs.File.{written};
ghost use Rattle.ifl_line.specs.Hands.{AreOf, AreFresh};
ghost use Rattle.ifl_line.specs.Passes.{ArePasses};

use crate::hands::Hands;
use crate::line::Line;
use crate::plan::{Plan, Tokens};
use crate::rules::Rules;
use crate::sizes::Sizes;
use ifl_base::NoMemory;
use ifl_desc::{DescRing, Turnstile};
use ifl_device::{EnginePlan, TxEngine};
use ifl_ring::Ring;
use ifl_txq::Txq;
use std::alloc::Global;

/// Makes a line, on which so many senders send by these rules, over what was made for it, and its whole hands.
pub fn assemble<'a, R: DescRing + 'static>(
    alloc: Global,
    plan: &'a Plan<R>,
    tokens: Tokens<R>,
    sizes: Sizes,
    engine_plan: EnginePlan,
    rules: Rules,
    senders: u64,
) -> Result<(Line<'a, R>, Hands<'a, R>), NoMemory>
    requires slots { (R.ring plan.now.ring).slots ≡ sizes.descriptors }
    requires ends { IsNewDriver (R.ring plan.now.ring) (R.driver_sees tokens.driver) × IsNewDevice (R.ring plan.now.ring) (R.device_sees tokens.device) }
    requires port { (tokens.reader ≡ reader_of plan.now.port []) × (tokens.writer ≡ writer_of plan.now.port []) }
    requires passes { ArePasses plan.now.pool tokens.queue_pass tokens.pass }
    requires log { tokens.log.lines ≡ [] }
    requires wire { tokens.wire.bytes ≡ written [] }
    ensures own { IfOk result (λ p. AreOf p.0 p.1 × AreFresh p.1) }
    ensures parts { IfOk result (λ p. (p.1.seats.ring.known.part ≡ PART) × (p.1.seats.turn.part ≡ PART) × (p.1.pass ≡ tokens.pass)) }
    ensures line { IfOk result (λ p. (p.0.ring.size ≡ sizes.ring) × (p.0.rules ≡ rules) × (p.0.pool.now ≡ plan.now.pool)) }
    ensures queue { IfOk result (λ p. p.0.ring.origin ≡ record { ring = R.ring plan.now.ring; port = plan.now.port; pool = plan.now.pool; part = tokens.queue_pass.known.part; max_segs = sizes.max_segs; doorbell_every = sizes.doorbell_every; counts = tokens.log.counts }) }
    ensures engine { IfOk result (λ p. p.0.turnstile.origin ≡ Some (record { plan = engine_plan; room = tokens.wire.room; ring = R.ring plan.now.ring; port = plan.now.port })) }
{
    let Tokens {
        driver,
        device,
        reader,
        writer,
        queue_pass,
        pass,
        log,
        wire,
    } = tokens;
    let queue = Txq::new(
        &plan.ring,
        driver,
        &plan.port,
        reader,
        &plan.pool,
        queue_pass,
        log,
        sizes.max_segs,
        sizes.doorbell_every,
    );
    let engine = TxEngine::new(&plan.ring, device, &plan.port, writer, wire, engine_plan);
    let (ring, seat) = match Ring::new(alloc, sizes.ring, queue) {
        Ok(made) => made,
        Err(_) => return Err(NoMemory),
    };
    let (turnstile, turn) = match Turnstile::new(alloc, engine) {
        Ok(made) => made,
        Err(_) => return Err(NoMemory),
    };
    let line = Line::new(ring, turnstile, &plan.pool, rules, senders);
    let hands = Hands::new(seat, turn, pass);
    Ok((line, hands))
}
