//! One sender, from its first frame to its last.
ghost use Rattle.ifl_line.specs.Runners.{MayStart, HasRun};

use crate::hands::Hands;
use crate::line::Line;
use crate::sender::Sender;
use crate::sending::send;
use ifl_desc::DescRing;
use ifl_outside::Gate;
use ifl_pcap::Capture;
use std::sync::Wait;
use std::sync::atomic::Ordering;

/// A sender with its capture and its hands.
#[derive(Drop)]
pub struct Runner<'a, R: DescRing> {
    pub(crate) capture: Capture,
    pub(crate) sender: Sender,
    pub(crate) hands: Hands<'a, R>,
}

/// Runs one sender to its end.
pub(crate) fn run_one<'a, R: DescRing, W: Wait, G: Gate>(
    rt: &W,
    line: &Line<'a, R>,
    gate: &G,
    runner: &mut Runner<'a, R>,
)
    requires { MayStart line.now runner.old }
    ensures { HasRun line.now runner.old runner.new }
{
    let capture = &runner.capture;
    send(
        rt,
        line,
        &mut runner.hands,
        &mut runner.sender,
        capture,
        gate,
    );
    line.ended.fetch_add(1, Ordering::SeqCst);
}
