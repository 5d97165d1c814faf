//! The engine.
ghost use Rattle.std.specs.Prelude.{◌≡◌, ◌≢◌, suc, ◌<◌, ◌≤◌, ◌⊎◌, [], ◌∷◌, ◌^◌, length, map, vec_capacity, true, false, cond};
ghost use Rattle.std.specs.Bool.{OnTrue, OnFalse};
ghost use Rattle.ifl_desc.specs.declared.desc.Status.TheVariants.{Emitted};
ghost use Rattle.ifl_desc.specs.declared.port.PortState.TheVariants.{Up, Down, Flush};
ghost use Rattle.ifl_desc.specs.Frames.{IsWholeFrame, frames_of};
ghost use Rattle.ifl_desc.specs.Port.{all_set};
ghost use Rattle.ifl_pcap.specs.File.{written};
ghost use Rattle.ifl_device.specs.Adapter.{captured, emitted_among, record_size, returned_as};
ghost use Rattle.ifl_device.specs.declared.point.Point.TheVariants as at;
ghost use Rattle.ifl_device.specs.Wire.{left_in};
ghost use Rattle.ifl_device.specs.Engine.{IsEngine, IsStopped, Returns, engine_of, returned};
ghost use Rattle.ifl_device.specs.Turns.{Turned, TriedOne, LooksOnce, LooksNot, IsTold, IsDrained, IsAt, MayEmit, MayVoid, IsVoid, MayEmpty, MayReturn, Resets, Empties, stopped, with_sets};

mod due;

use crate::frames::{give_back, take_frame};
use crate::plan::{EngineOrigin, EnginePlan, Turn};
use crate::point::Point;
use crate::tried::Tried;
use crate::wire::{Wire, WireBuffer, record_len};
use ifl_desc::{Desc, DescRing, Kept, Port, PortState, PortWriter, Status};
use std::marker::Model;

/// Emits the frames of a ring onto a wire, one at a time and in order, and hangs, loses its link and is stopped as its
/// plan says. It owns its end of the ring, the port's writer and the wire, and it takes no memory.
///
/// What it returns is what was posted but for the status, and its wire is the capture of what it emitted. Where its
/// plan is not led by hand, it keeps to it: frames are aborted and flushed only where as many were emitted as it says.
#[derive(Drop)]
pub struct TxEngine<'a, R: DescRing> {
    ring: &'a R,
    port: &'a Port,
    device: R::Device,
    writer: PortWriter,
    wire: Wire,
    // What was fetched and is not completed: nothing, or one frame.
    frame: Vec<Desc>,
    emitted: u64,
    plan: EnginePlan,
    // Flush has begun.
    flushing: bool,
    // It was reset since it emitted as many frames as it hangs after.
    cleared: bool,
    // For how many turns the link is still to be lost.
    downs: u32,
}

impl<'a, R: DescRing> Model for TxEngine<'a, R> {
    ghost use Rattle.std.specs.Prelude.{◌≤◌, vec_capacity};
    ghost use Rattle.std.specs.Bool.{OnTrue, OnFalse};
    ghost use Rattle.ifl_desc.specs.Port.{all_set};
    ghost use Rattle.ifl_device.specs.Engine.{EngineSees, IsEngine, IsStopped, engine_of};

    ghost Value = { EngineSees };

    ghost view = { λ e. engine_of (R.ring e.ring.now) e.port.now e.plan (R.device_sees e.device) (all_set e.writer) e.wire e.frame.items e.emitted e.cleared e.downs };

    ghost invariant = { λ e. let x : EngineSees = engine_of (R.ring e.ring.now) e.port.now e.plan (R.device_sees e.device) (all_set e.writer) e.wire e.frame.items e.emitted e.cleared e.downs in
        IsEngine x × (64 ≤ vec_capacity e.frame) × OnTrue e.flushing (IsStopped x) × OnFalse e.flushing (IsStopped x → ⊥) };
}

impl<'a, R: DescRing> TxEngine<'a, R> {
    /// An engine that has emitted nothing, of a device's end that has fetched nothing, a writer that has set nothing and
    /// a wire without records.
    pub fn new(
        ring: &'a R,
        device: R::Device,
        port: &'a Port,
        writer: PortWriter,
        wire: WireBuffer,
        plan: EnginePlan,
    ) -> TxEngine<'a, R>
        requires own { ((R.device_sees device).ring ≡ R.ring ring.now) × (writer.port ≡ port.now) }
        requires fresh { ((R.device_sees device).fetched ≡ 0) × ((R.device_sees device).ready ≡ []) × (writer.known ≡ []) × (wire.bytes ≡ written []) }
        ensures made { result ≡ engine_of (R.ring ring.now) port.now plan (R.device_sees device) (all_set writer) wire [] 0 false plan.link_down_turns }
        ensures lawful { IsEngine result }
    {
        // Any call at the end tells that it is one of a lawful ring.
        ring.doorbell(&device);
        let WireBuffer { wire, frame } = wire;
        TxEngine {
            ring,
            port,
            device,
            writer,
            wire,
            frame,
            emitted: 0,
            plan,
            flushing: false,
            cleared: false,
            downs: plan.link_down_turns,
        }
    }

    /// Makes the first of these that applies:
    ///
    /// 1. Where flush has begun, or as many frames are emitted as it comes after, the port is flushed and every rung
    ///    frame is returned as flushed.
    /// 2. Where as many are emitted as the engine hangs after, and it was not reset since, it answers `Hung`.
    /// 3. Where as many are emitted as the link is lost after, it is down for the planned number of turns.
    /// 4. Rung frames are emitted in order, at most so many, and not past a number of the plan.
    ///
    /// It answers `Idle` where nothing was rung beyond what was fetched and nothing is held, and `WireFull` where the
    /// first frame's record needs more than the room left; that frame is held, and the next turn tries it again. It
    /// moves fewer frames than asked only where no more was rung at its one look, the next record does not fit, or a
    /// number of the plan is reached. Where it moves as many as asked, it holds nothing at its end.
    pub fn turn(&mut self, frames: u32) -> Turn
        requires { 1 ≤ frames }
        ensures did { Turned self.old frames result self.new }
        ensures lawful { IsEngine self.new }
    {
        match self.point() {
            Point::Stopping => self.flush_turn(frames),
            Point::Hanging => Turn::Hung {
                emitted: self.emitted,
            },
            Point::Cutting => self.cut_turn(frames),
            Point::Emitting => self.emit_turn(frames),
        }
    }

    // Begins the flush, and returns every rung frame as flushed.
    fn flush_turn(&mut self, frames: u32) -> Turn
        requires point { IsAt at.Stopping self.old }
        ensures did { Turned self.old frames result self.new }
        ensures lawful { IsEngine self.new }
    {
        self.stop();
        let flushed = self.return_all(Status::Flushed);
        if flushed > 0 {
            return Turn::Flushed(flushed);
        }
        Turn::Idle {
            doorbell: self.ring.doorbell(&self.device),
        }
    }

    // Sets the port to Flush, where it was not.
    fn stop(&mut self)
        requires planned { (self.old.plan.by_hand ≡ true) ⊎ IsAt at.Stopping self.old }
        ensures did { self.new ≡ stopped self.old }
        ensures stopped { IsStopped self.new }
        ensures lawful { IsEngine self.new }
    {
        if !self.flushing {
            self.port.set(&mut self.writer, PortState::Flush);
            self.flushing = true;
        }
    }

    // Sets the port to Up or Down where it is asked to.
    fn set_where(&mut self, asked: bool, state: PortState)
        requires unstopped { IsStopped self.old → ⊥ }
        requires state { state ≢ Flush }
        ensures did { self.new ≡ with_sets (cond asked (state ∷ []) []) self.old }
        ensures unstopped { IsStopped self.new → ⊥ }
        ensures lawful { IsEngine self.new }
    {
        if asked {
            self.port.set(&mut self.writer, state);
        }
    }

    // One turn for which the link is lost.
    fn cut_turn(&mut self, frames: u32) -> Turn
        requires point { IsAt at.Cutting self.old }
        ensures did { Turned self.old frames result self.new }
        ensures lawful { IsEngine self.new }
    {
        self.set_where(self.downs == self.plan.link_down_turns, PortState::Down);
        self.count_down();
        self.set_where(self.downs == 0, PortState::Up);
        Turn::Down { left: self.downs }
    }

    // One turn less is to come for which the link is lost.
    fn count_down(&mut self)
        requires { 0 < self.old.downs }
        ensures did { self.new ≡ record (self.old) { downs = self.new.downs } }
        ensures count { self.old.downs ≡ suc self.new.downs }
        ensures lawful { IsEngine self.new }
    {
        self.downs -= 1;
    }

    // Emits rung frames in order.
    fn emit_turn(&mut self, frames: u32) -> Turn
        requires frames { 1 ≤ frames }
        requires point { IsAt at.Emitting self.old }
        ensures did { Turned self.old frames result self.new }
        ensures lawful { IsEngine self.new }
    {
        let limit = self.limit(frames);
        self.look();
        for moved in 0..limit {
            match self.try_frame() {
                Tried::Sent => {}
                Tried::Empty => {
                    if moved > 0 {
                        return Turn::Moved(moved);
                    }
                    return Turn::Idle {
                        doorbell: self.ring.doorbell(&self.device),
                    };
                }
                Tried::Full(need, room) => {
                    if moved > 0 {
                        return Turn::Moved(moved);
                    }
                    return Turn::WireFull { need, room };
                }
            }
        }
        Turn::Moved(limit)
    }

    // Looks at the doorbell once.
    fn look(&mut self)
        ensures looked { LooksOnce self.old.device.seen self.new.device.seen }
        ensures returned { (s : _) → Returns s [] self.old self.new }
        ensures told { IsTold self.new }
        ensures kept { returned self.new ≡ returned self.old }
        ensures held { (self.new.held ≡ self.old.held) × (self.new.device.fetched ≡ self.old.device.fetched) }
        ensures lawful { IsEngine self.new }
    {
        self.ring.fetch(&mut self.device);
    }

    // Emits the held frame, or else the next one.
    fn try_frame(&mut self) -> Tried
        requires told { IsTold self.old }
        requires may { MayEmit self.old }
        ensures tried { TriedOne self.old result self.new }
        ensures lawful { IsEngine self.new }
    {
        if !self.hold_frame() {
            return Tried::Empty;
        }
        let need = record_len(&self.frame);
        let room = self.wire.left();
        if need > room {
            return Tried::Full(need, room);
        }
        self.emit();
        Tried::Sent
    }

    // Takes the next frame off the ring where none is held, and answers whether one is held then.
    fn hold_frame(&mut self) -> bool
        requires { IsTold self.old }
        ensures held { OnTrue result (((s : _) → Returns s [] self.old self.new) × LooksNot self.old self.new × IsTold self.new × IsWholeFrame self.new.held) }
        ensures none { OnFalse result ((self.new ≡ self.old) × IsDrained self.new) }
        ensures kept { returned self.new ≡ returned self.old }
        ensures lawful { IsEngine self.new }
    {
        if self.frame.is_empty() {
            return take_frame(self.ring, &mut self.device, &mut self.frame);
        }
        true
    }

    // Puts the record of the held frame on the wire, and returns its descriptors.
    fn emit(&mut self)
        requires told { IsTold self.old }
        requires frame { IsWholeFrame self.old.held }
        requires may { MayEmit self.old }
        requires room { record_size self.old.held ≤ left_in self.old.wire }
        requires small { self.old.wire.room < 2 ^ 64 }
        ensures sent { Returns Emitted (map (returned_as Emitted) self.old.held ∷ []) self.old self.new }
        ensures looked { LooksNot self.old self.new × IsTold self.new }
        ensures none { self.new.held ≡ [] }
        ensures lawful { IsEngine self.new }
    {
        self.wire.write(&self.frame);
        give_back(
            self.ring,
            &mut self.device,
            &mut self.frame,
            Status::Emitted,
        );
        self.emitted += 1;
    }

    // Returns the descriptors of the held frame, which is not emitted.
    fn void(&mut self, status: Status)
        requires told { IsTold self.old }
        requires frame { IsWholeFrame self.old.held }
        requires status { IsVoid status }
        requires may { (self.old.plan.by_hand ≡ true) ⊎ MayReturn status self.old }
        ensures sent { Returns status (map (returned_as status) self.old.held ∷ []) self.old self.new }
        ensures looked { LooksNot self.old self.new × IsTold self.new }
        ensures may { (self.new.plan.by_hand ≡ true) ⊎ MayReturn status self.new }
        ensures more { length (returned self.old) < length (returned self.new) }
        ensures none { self.new.held ≡ [] }
        ensures lawful { IsEngine self.new }
    {
        give_back(self.ring, &mut self.device, &mut self.frame, status);
    }

    // Returns every frame that is held, or rung at one look, with this status.
    fn return_all(&mut self, status: Status) -> u32
        requires status { IsVoid status }
        requires may { (self.old.plan.by_hand ≡ true) ⊎ MayEmpty status self.old }
        ensures did { Empties status result self.old self.new }
        ensures none { result ≡ 0 → (self.old.held ≡ []) × (self.new.device.fetched ≡ self.old.device.fetched) }
        ensures few { result < self.old.ring.slots }
        ensures lawful { IsEngine self.new }
    {
        self.look();
        let size = self.ring.size();
        for returned in 0..size {
            if !self.hold_frame() {
                return returned;
            }
            self.void(status);
        }
        unreachable!()
    }

    /// Returns every frame that is held, or rung at its one look, as `status` says, `Aborted` or `Flushed`, and answers
    /// how many they were: fewer than the ring has slots. A hang is over from then on.
    ///
    /// An engine that is not led by hand is aborted only where it hangs, as a turn that answers `Hung` leaves it, and
    /// flushed only where its flush has begun.
    pub fn abort_all(&mut self, status: Status) -> u32
        requires status { IsVoid status }
        requires planned { (self.old.plan.by_hand ≡ true) ⊎ MayVoid status self.old }
        ensures did { (m : _) × Resets self.old m × Empties status result m self.new }
        ensures few { result < self.old.ring.slots }
        ensures lawful { IsEngine self.new }
    {
        self.reset();
        self.return_all(status)
    }

    // Ends a hang.
    fn reset(&mut self)
        ensures did { Resets self.old self.new }
        ensures was { IsEngine self.old }
        ensures lawful { IsEngine self.new }
    {
        if self.emitted >= self.plan.hang_after {
            self.cleared = true;
        }
    }

    /// Sets the port to Flush, from now on.
    pub fn begin_flush(&mut self)
        requires by_hand { self.old.plan.by_hand ≡ true }
        ensures did { self.new ≡ stopped self.old }
        ensures stopped { IsStopped self.new }
        ensures lawful { IsEngine self.new }
    {
        self.stop();
    }

    /// Sets the port to Up or Down.
    pub fn set_link(&mut self, up: bool)
        requires by_hand { self.old.plan.by_hand ≡ true }
        requires unstopped { IsStopped self.old → ⊥ }
        ensures did { self.new ≡ with_sets (cond up Up Down ∷ []) self.old }
        ensures lawful { IsEngine self.new }
    {
        let state = if up { PortState::Up } else { PortState::Down };
        self.set_where(true, state);
    }

    /// Flush has begun.
    pub fn flushing(&self) -> bool
        ensures begun { OnTrue result (IsStopped self.now) }
        ensures not_begun { OnFalse result (IsStopped self.now → ⊥) }
        ensures lawful { IsEngine self.now }
    {
        self.flushing
    }

    /// How many frames were emitted.
    pub fn emitted(&self) -> u64
        ensures emitted { result ≡ self.now.emitted }
        ensures lawful { IsEngine self.now }
    {
        self.emitted
    }

    /// How many descriptors were fetched and not completed: those of a frame whose record did not fit.
    pub fn held(&self) -> u32
        ensures held { result ≡ length self.now.held }
        ensures lawful { IsEngine self.now }
    {
        self.frame.len() as u32
    }

    /// Its end of the ring, the port's writer, and the wire's bytes, which are the capture of the frames that it emitted.
    pub fn close(self) -> (R::Device, PortWriter, Vec<u8>)
        requires { self.held ≡ [] }
        ensures device { R.device_sees result.0 ≡ self.entry.device }
        ensures writer { all_set result.1 ≡ self.entry.writer }
        ensures wire { result.2.items ≡ self.entry.wire.bytes }
        ensures capture { result.2.items ≡ written (map captured (emitted_among (frames_of (returned self.entry)))) }
        ensures lawful { IsEngine self.entry }
    {
        let TxEngine {
            ring: _,
            port: _,
            device,
            writer,
            wire,
            frame: _,
            emitted: _,
            plan: _,
            flushing: _,
            cleared: _,
            downs: _,
        } = self;
        (device, writer, wire.into_bytes())
    }
}

impl<'a, R: DescRing> Kept for TxEngine<'a, R> {
    type Origin = EngineOrigin<R>;

    ghost use Rattle.ifl_device.specs.Origin.{made_with};

    ghost origin = { made_with };
}
