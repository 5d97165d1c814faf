//! The device of a ring, which emits all that it finds.
ghost use Rattle.std.specs.Prelude.{◌≡◌, [], true};
ghost use Rattle.ifl_desc.specs.Ends.{completed};

use ifl_desc::{Desc, DescRing, Status};

/// The same descriptor, emitted.
fn emitted(d: Desc) -> Desc
    ensures { (result.last ≡ d.last) × (result.status ≡ Status.Emitted) }
{
    Desc {
        seg: d.seg,
        ticket: d.ticket,
        stamp: d.stamp,
        last: d.last,
        status: Status::Emitted,
    }
}

/// Completes the oldest descriptor that is known to be rung, as emitted, and answers whether it ended a frame. Where
/// there is none, it answers what was so before.
fn emit_one<R: DescRing>(ring: &R, device: &mut R::Device, whole: bool) -> bool
    requires ring { (R.device_sees device.old).ring ≡ R.ring ring.now }
    requires done { completed (R.device_sees device.old) ≡ (R.device_sees device.old).fetched }
    requires whole { whole ≡ true → (R.device_sees device.old).ready ≡ [] }
    ensures ring { (R.device_sees device.new).ring ≡ R.ring ring.now }
    ensures done { completed (R.device_sees device.new) ≡ (R.device_sees device.new).fetched }
    ensures whole { result ≡ true → (R.device_sees device.new).ready ≡ [] }
{
    let Some(d) = ring.next(device) else {
        return whole;
    };
    let last = d.last;
    ring.complete(device, emitted(d));
    last
}

/// A turn of the device: it looks once, and completes all that is known to be rung. It answers how many these were, and
/// whether the last one ended a frame.
pub fn turn<R: DescRing>(ring: &R, device: &mut R::Device, whole: bool) -> (u32, bool)
    requires ring { (R.device_sees device.old).ring ≡ R.ring ring.now }
    requires done { completed (R.device_sees device.old) ≡ (R.device_sees device.old).fetched }
    requires whole { whole ≡ true → (R.device_sees device.old).ready ≡ [] }
    ensures ring { (R.device_sees device.new).ring ≡ R.ring ring.now }
    ensures done { completed (R.device_sees device.new) ≡ (R.device_sees device.new).fetched }
    ensures whole { result.1 ≡ true → (R.device_sees device.new).ready ≡ [] }
{
    let mut whole = whole;
    let more = ring.fetch(device);
    for _ in 0..more {
        whole = emit_one(ring, device, whole);
    }
    (more, whole)
}
