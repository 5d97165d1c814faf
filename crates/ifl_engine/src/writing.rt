ghost use Rattle.std.specs.Prelude.{◌≡◌, ◌≢◌, ◌≤◌, ◌++◌, ℕ, List, OnOk, IfErr};
ghost use Rattle.std.specs.String.{string_bytes};
ghost use Rattle.ifl_outside.specs.Told.{BothTold};
ghost use Rattle.ifl_engine.specs.Read.{names_of};
ghost use Rattle.ifl_engine.specs.Seen.{seen};
ghost use Rattle.ifl_engine.specs.Left.{IsLeft, IsStanding};
ghost use Rattle.ifl_engine.specs.CutShort.{IsBegun};
ghost use Rattle.ifl_engine.specs.Texts.{counter_text_of};
ghost use Rattle.ifl_engine.specs.Answer.{IsDone};
ghost use Rattle.ifl_engine.specs.Steps.{IsHostStop, stop_by};

use crate::report::Report;
use crate::stop::Stop;
use crate::texts::{counter_text, order_text};
use ifl_base::NoMemory;
use ifl_conf::SendWords;
use ifl_outside::{Host, HostError};
use std::alloc::Global;

/// The stop for a call of the host that did not succeed.
fn write_stop(e: HostError, failed: Stop) -> Stop
    ensures { result ≡ stop_by e failed }
{
    match e {
        HostError::Failed => failed,
        HostError::Memory => Stop::Memory,
    }
}

/// Writes the wire file and then the order file, and then prints the counters. The first that fails ends it.
pub fn put_out<H: Host>(
    alloc: Global,
    names: &SendWords,
    report: &Report,
    host: &mut H,
) -> Result<(), Stop>
    requires { string_bytes names.now.wire ≢ string_bytes names.now.order }
    ensures done { OnOk result (IsDone (names_of names.now) report.now
        (seen H.faults H.files H.printed host.old) (seen H.faults H.files H.printed host.new)) }
    ensures later { H.faults host.old ≤ H.faults host.new }
    ensures stop { IfErr result (λ e. IsHostStop e (H.faults host.old) (H.faults host.new)) }
    ensures left { IfErr result (λ e. BothTold (H.files host.old) (H.files host.new) (IsLeft (names_of names.now) report.now e)) }
    ensures begun { IfErr result (λ e. BothTold (H.printed host.old) (H.printed host.new)
        (λ was now. (part : List ℕ) × IsBegun e (λ text. text ≡ counter_text_of names.now.ring report.now.plain report.now.ring) part × (now ≡ was ++ part))) }
    ensures standing { BothTold (H.files host.old) (H.files host.new) (IsStanding (names_of names.now) report.now) }
{
    let order = match order_text(alloc, report) {
        Ok(text) => text,
        Err(NoMemory) => return Err(Stop::Memory),
    };
    let counters = match counter_text(alloc, report, names.ring) {
        Ok(text) => text,
        Err(NoMemory) => return Err(Stop::Memory),
    };
    if let Err(e) = host.write(alloc, names.wire.as_str(), report.wire.as_slice()) {
        return Err(write_stop(e, Stop::WireFailed));
    }
    if let Err(e) = host.write(alloc, names.order.as_str(), &order) {
        return Err(write_stop(e, Stop::OrderFailed));
    }
    if let Err(e) = host.print(alloc, &counters) {
        return Err(write_stop(e, Stop::PrintFailed));
    }
    Ok(())
}
