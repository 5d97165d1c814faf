ghost use Rattle.std.specs.Prelude.{◌≡◌, ◌≤◌, ◌<◌, ◌+◌, ◌^◌, ℕ, All, List, length, drop, IfOk, IfErr, Ok, Err};
ghost use Rattle.ifl_pcap.specs.declared.frame.Frame.{Frame};
ghost use Rattle.ifl_pcap.specs.declared.fault.CaptureWhy.{CaptureWhy};
ghost use Rattle.ifl_pcap.specs.declared.fault.CaptureFault.TheVariants.{Bad};
ghost use Rattle.ifl_pcap.specs.Numbers.{number_in};
ghost use Rattle.ifl_pcap.specs.File.{micros, IsFile};
ghost use Rattle.ifl_pcap.specs.Faults.{IsFirstFault, IsFaultOf};
ghost use Rattle.ifl_pcap.specs.Reading.{Gives, stamp_at, frame_at, frames_at, capture_of};
ghost use Rattle.ifl_pcap.specs.Table.{front_frame, frames_in, LiesIn};

use crate::capture::Capture;
use crate::fault::{CaptureFault, CaptureWhy};
use crate::form::{Form, Fraction, HEAD_LEN, HEADER_LEN, Order};
use crate::header::header_of;
use crate::table::Place;
use byteorder::{BigEndian, ByteOrder, LittleEndian};
use ifl_base::Stamp;
use std::alloc::Global;

/// The most captured bytes of one record.
const CAPTURED_MAX: usize = 262_144;

/// The number at this place of the bytes.
#[tactic(auto, unfolding(crate::specs::Numbers::number_in))]
fn number_at(order: Order, bytes: &[u8], place: usize) -> u32
    requires { place + 4 ≤ length bytes.now }
    ensures { result ≡ number_in order (drop place bytes.now) }
{
    let (_, number) = bytes.split_at(place);
    match order {
        Order::Little => LittleEndian::read_u32(number),
        Order::Big => BigEndian::read_u32(number),
    }
}

/// The microseconds of a fraction of a second, rounded down.
fn micros_of(fraction: Fraction, count: u32) -> u32
    ensures { result ≡ micros fraction count }
{
    match fraction {
        Fraction::Micros => count,
        Fraction::Nanos => count / 1_000,
    }
}

/// The stamp of the record at the front of the bytes.
#[tactic(auto, unfolding(crate::specs::Reading::stamp_at))]
pub(crate) fn stamp_of(form: Form, bytes: &[u8]) -> Stamp
    requires { 16 ≤ length bytes.now }
    ensures { result ≡ stamp_at form bytes.now }
{
    let sec = number_at(form.order, bytes, 0);
    let count = number_at(form.order, bytes, 4);
    let orig = number_at(form.order, bytes, 12);
    let usec = micros_of(form.fraction, count);
    Stamp { sec, usec, orig }
}

/// How many bytes the frame of the record at the front of the bytes has, which begins at `at` in the file.
#[tactic(auto, unfolding(crate::specs::Reading::frame_at))]
fn frame_len(form: Form, at: u64, bytes: &[u8]) -> Result<usize, CaptureFault>
    ensures read { Gives (λ len. (front_frame form len bytes.now, drop len (drop 16 bytes.now))) result (frame_at form at bytes.now) }
    ensures there { IfOk result (λ len. 16 + len ≤ length bytes.now) }
{
    if bytes.len() < HEAD_LEN {
        return Err(CaptureFault::Bad {
            at,
            why: CaptureWhy::RecordShort,
        });
    }
    let len = number_at(form.order, bytes, 8) as usize;
    if CAPTURED_MAX < len {
        return Err(CaptureFault::Bad {
            at,
            why: CaptureWhy::TooLong,
        });
    }
    if bytes.len() - HEAD_LEN < len {
        return Err(CaptureFault::Bad {
            at,
            why: CaptureWhy::RecordShort,
        });
    }
    Ok(len)
}

/// Where the records behind the header of a file lie.
fn places_of(alloc: Global, form: Form, file: &[u8]) -> Result<Vec<Place>, CaptureFault>
    requires { (24 ≤ length file.now) × (length file.now < 2 ^ 32) }
    ensures read { Gives (λ v. frames_in form file.now v.items) result (frames_at form (length (drop 24 file.now)) 24 (drop 24 file.now)) }
    ensures there { IfOk result (λ v. All (LiesIn file.now) v.items) }
{
    let mut places = Vec::new(alloc);
    let (_, mut rest) = file.split_at(HEADER_LEN);
    let mut at = HEADER_LEN;
    while 0 < rest.len() {
        let len = frame_len(form, at as u64, rest)?;
        places.push(Place {
            at: at as u32,
            len: len as u32,
        })?;
        let (_, behind) = rest.split_at(HEAD_LEN);
        let (_, after) = behind.split_at(len);
        at += HEAD_LEN + len;
        rest = after;
    }
    Ok(places)
}

/// The form of a whole file, and where its records lie.
#[tactic(auto, unfolding(crate::specs::Reading::capture_of))]
fn table_of(alloc: Global, bytes: &[u8]) -> Result<(Form, Vec<Place>), CaptureFault>
    ensures read { Gives (λ t. frames_in t.0 bytes.now t.1.items) result (capture_of bytes.now) }
    ensures there { IfOk result (λ t. All (LiesIn bytes.now) t.1.items) }
    ensures found { IfOk result (λ t. IsFile bytes.now (frames_in t.0 bytes.now t.1.items)) }
    ensures fault { IfErr result (λ e. IsFaultOf bytes.now e) }
{
    let form = header_of(bytes)?;
    if u32::try_from(bytes.len()).is_err() {
        return Err(CaptureFault::Memory);
    }
    let places = places_of(alloc, form, bytes)?;
    Ok((form, places))
}

/// The capture of which these bytes are the file.
///
/// `Bad` comes exactly where they are no capture's file, with the first fault from the front: a header that is
/// short, another magic, another version or another link type, and then for each record in turn that it is not
/// all there or announces too much.
pub fn read_capture(alloc: Global, bytes: Vec<u8>) -> Result<Capture, CaptureFault>
    // What is read is what the bytes are the file of.
    ensures found { IfOk result (λ c. IsFile bytes.items c.frames) }
    // A fault that is named is the first one.
    ensures fault { IfErr result (λ e. IsFaultOf bytes.items e) }
    // A file is read as its frames, unless memory runs out.
    ensures only { (fs : List Frame) → IsFile bytes.items fs → Gives (λ c. c.frames) result (Ok fs) }
    // The first fault is named, unless memory runs out.
    ensures first { (at : ℕ) (why : CaptureWhy) → IsFirstFault bytes.items at why → Gives (λ c. c.frames) result (Err (Bad at why)) }
    ensures exact { Gives (λ c. c.frames) result (capture_of bytes.items) }
{
    let (form, places) = table_of(alloc, &bytes)?;
    Ok(Capture {
        form,
        bytes,
        places,
    })
}
