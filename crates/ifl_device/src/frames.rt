//! Whole frames on their way off a ring and back onto it.
ghost use Rattle.std.specs.Prelude.{◌≡◌, ◌+◌, ◌≤◌, [], length, map, vec_capacity};
ghost use Rattle.std.specs.Bool.{OnTrue, OnFalse};
ghost use Rattle.ifl_desc.specs.declared.history.Side.TheVariants.{Device};
ghost use Rattle.ifl_desc.specs.declared.history.Event.TheVariants.{Sent};
ghost use Rattle.ifl_desc.specs.History.{known};
ghost use Rattle.ifl_desc.specs.Calls.{Grew};
ghost use Rattle.ifl_desc.specs.Frames.{IsSettled, IsWholeFrame};
ghost use Rattle.ifl_desc.specs.Ends.{IsDevice, completed};
ghost use Rattle.ifl_device.specs.Adapter.{returned_as};
ghost use Rattle.ifl_device.specs.Turns.{EndsFrame, Takes};

use ifl_desc::{Desc, DescRing, Status};

/// Takes the next frame off the ring, or answers that none is rung.
pub fn take_frame<R: DescRing>(ring: &R, device: &mut R::Device, frame: &mut Vec<Desc>) -> bool
    requires ring { (R.device_sees device.old).ring ≡ R.ring ring.now }
    requires lawful { IsDevice (R.device_sees device.old) }
    requires told { EndsFrame (known Device (R.device_sees device.old).seen) (R.device_sees device.old) }
    requires start { EndsFrame (R.device_sees device.old).fetched (R.device_sees device.old) }
    requires room { (frame.old.items ≡ []) × (64 ≤ vec_capacity frame.old) }
    ensures same { R.device_sees device.new ≡ record (R.device_sees device.old) { fetched = (R.device_sees device.new).fetched } }
    ensures lawful { IsDevice (R.device_sees device.new) }
    ensures taken { OnTrue result (Takes (R.device_sees device.old) frame.new.items (R.device_sees device.new)) }
    ensures none { OnFalse result ((frame.new.items ≡ []) × (R.device_sees device.new ≡ R.device_sees device.old) × ((R.device_sees device.old).fetched ≡ known Device (R.device_sees device.old).seen)) }
    ensures capacity { vec_capacity frame.new ≡ vec_capacity frame.old }
{
    let mut last = false;
    while !last {
        let Some(d) = ring.next(device) else {
            return false;
        };
        last = d.last;
        frame.push_reserved(d);
    }
    true
}

/// Completes the entries of one frame in order, each with this status.
pub fn give_back<R: DescRing>(
    ring: &R,
    device: &mut R::Device,
    frame: &mut Vec<Desc>,
    status: Status,
)
    requires ring { (R.device_sees device.old).ring ≡ R.ring ring.now }
    requires ready { (R.device_sees device.old).ready ≡ [] }
    requires fetched { (R.device_sees device.old).fetched ≡ completed (R.device_sees device.old) + length frame.old.items }
    requires frame { IsWholeFrame frame.old.items }
    requires status { IsSettled status }
    ensures returned { Grew Device (R.device_sees device.old).seen (R.device_sees device.new).seen (Sent Device (map (returned_as status) frame.old.items)) }
    ensures same { R.device_sees device.new ≡ record (R.device_sees device.old) { seen = (R.device_sees device.new).seen } }
    ensures lawful { IsDevice (R.device_sees device.new) }
    ensures none { (frame.new.items ≡ []) × (vec_capacity frame.new ≡ vec_capacity frame.old) }
{
    frame.reverse();
    while let Some(mut d) = frame.pop() {
        d.status = status;
        ring.complete(device, d);
    }
}
