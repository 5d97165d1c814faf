//! What the definitions come to. A law is a function that does nothing, and its contract is the law.
ghost use Rattle.std.specs.Prelude.{◌≡◌, ℕ};
ghost use Rattle.ifl_device.specs.declared.plan.Turn.{Turn};
ghost use Rattle.ifl_device.specs.Engine.{EngineSees, IsStopped};
ghost use Rattle.ifl_device.specs.Turns.{Turned};

/// No turn emits a frame after flush has begun, and flush goes on.
pub fn nothing_is_emitted_after_flush()
    ensures { (a b : EngineSees) (n : ℕ) (t : Turn) → IsStopped a → Turned a n t b → (b.emitted ≡ a.emitted) × IsStopped b }
{}
