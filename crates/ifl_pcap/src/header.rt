ghost use Rattle.std.specs.Prelude.{◌≡◌, ◌≤◌, length, take, drop, IfOk};
ghost use Rattle.std.specs.Str.{bytes_eq};
ghost use Rattle.ifl_pcap.specs.File.{version, ethernet, link_place};
ghost use Rattle.ifl_pcap.specs.Reading.{form_of, header_at};

use crate::fault::{CaptureFault, CaptureWhy};
use crate::form::{Form, Fraction, HEADER_LEN, Order};

/// The magics of the four forms.
const LITTLE_MICROS: [u8; 4] = [0xd4, 0xc3, 0xb2, 0xa1];

const LITTLE_NANOS: [u8; 4] = [0x4d, 0x3c, 0xb2, 0xa1];

const BIG_MICROS: [u8; 4] = [0xa1, 0xb2, 0xc3, 0xd4];

const BIG_NANOS: [u8; 4] = [0xa1, 0xb2, 0x3c, 0x4d];

/// Version 2.4 in each order.
const LITTLE_VERSION: [u8; 4] = [2, 0, 4, 0];

const BIG_VERSION: [u8; 4] = [0, 2, 0, 4];

/// The low 16 bits of the link type Ethernet in each order.
const LITTLE_ETHERNET: [u8; 2] = [1, 0];

const BIG_ETHERNET: [u8; 2] = [0, 1];

/// The form whose magic this is.
#[tactic(auto, unfolding(crate::specs::Reading::form_of))]
fn form_by(magic: &[u8]) -> Option<Form>
    ensures { result ≡ form_of magic.now }
{
    let (order, fraction) = if magic == LITTLE_MICROS.as_slice() {
        (Order::Little, Fraction::Micros)
    } else if magic == LITTLE_NANOS.as_slice() {
        (Order::Little, Fraction::Nanos)
    } else if magic == BIG_MICROS.as_slice() {
        (Order::Big, Fraction::Micros)
    } else if magic == BIG_NANOS.as_slice() {
        (Order::Big, Fraction::Nanos)
    } else {
        return None;
    };
    Some(Form { order, fraction })
}

/// Whether the version behind the magic is 2.4.
fn is_version(order: Order, bytes: &[u8]) -> bool
    requires { 24 ≤ length bytes.now }
    ensures { result ≡ bytes_eq (take 4 (drop 4 bytes.now)) (version order) }
{
    let found = &bytes[4..8];
    match order {
        Order::Little => found == LITTLE_VERSION.as_slice(),
        Order::Big => found == BIG_VERSION.as_slice(),
    }
}

/// Whether the low 16 bits of the link type are those of Ethernet.
fn is_ethernet(order: Order, bytes: &[u8]) -> bool
    requires { 24 ≤ length bytes.now }
    ensures { result ≡ bytes_eq (take 2 (drop (link_place order) bytes.now)) (ethernet order) }
{
    match order {
        Order::Little => {
            let found = &bytes[20..22];
            found == LITTLE_ETHERNET.as_slice()
        }
        Order::Big => {
            let found = &bytes[22..24];
            found == BIG_ETHERNET.as_slice()
        }
    }
}

/// The form of the header at the front of the bytes.
#[tactic(auto, unfolding(crate::specs::Reading::header_at))]
pub fn header_of(bytes: &[u8]) -> Result<Form, CaptureFault>
    ensures form { result ≡ header_at bytes.now }
    ensures long { IfOk result (λ _. 24 ≤ length bytes.now) }
{
    if bytes.len() < HEADER_LEN {
        return Err(CaptureFault::Bad {
            at: 0,
            why: CaptureWhy::Short,
        });
    }
    let magic = &bytes[..4];
    let Some(form) = form_by(magic) else {
        return Err(CaptureFault::Bad {
            at: 0,
            why: CaptureWhy::Magic,
        });
    };
    if !is_version(form.order, bytes) {
        return Err(CaptureFault::Bad {
            at: 4,
            why: CaptureWhy::Version,
        });
    }
    if !is_ethernet(form.order, bytes) {
        return Err(CaptureFault::Bad {
            at: 20,
            why: CaptureWhy::Link,
        });
    }
    Ok(form)
}
