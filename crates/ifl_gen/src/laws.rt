//! Laws above the definitions. Each is a function that does nothing, and its contract is the law.

ghost use Rattle.std.specs.Prelude.{◌≡◌, ◌<◌, ◌≤◌, ◌+◌, ◌*◌, ◌^◌, ℕ, All, length, sum};
ghost use Rattle.std.specs.List.{AllByRecursion};
ghost use Rattle.ifl_pcap.specs.File.{Fits, IsFile, written};
ghost use Rattle.ifl_gen.specs.declared.traffic.Traffic.{Traffic};
ghost use Rattle.ifl_gen.specs.declared.measuring.Measured.TheVariants as measured;
ghost use Rattle.ifl_gen.specs.States.{after_steps, first_state};
ghost use Rattle.ifl_gen.specs.Frames.{length_by, byte_by, generated};
ghost use Rattle.ifl_gen.specs.Measure.{frame_count, sizes, measure_of};

/// Seed 1 of sender 0 begins with these two numbers, whose frames have 1,094 and 1,008 bytes.
pub fn seed_one_begins_so()
    ensures first { after_steps 1 (first_state 1 0) ≡ 7806831264735756412 }
    ensures second { after_steps 2 (first_state 1 0) ≡ 9396908728118811419 }
    ensures lengths { (length_by 7806831264735756412 ≡ 1094) × (length_by 9396908728118811419 ≡ 1008) }
{}

/// A frame has 60 to 1,514 bytes, and each of these lengths is that of some number of 64 bits.
pub fn lengths_are_60_to_1514()
    ensures least { (x : ℕ) → 60 ≤ length_by x }
    ensures most { (x : ℕ) → length_by x ≤ 1514 }
    ensures each { (n : ℕ) → 60 ≤ n → n ≤ 1514 → (x : ℕ) × (x < 2 ^ 64) × (length_by x ≡ n) }
{}

/// The bytes of a frame repeat after 256, which is why they are made once and copied.
pub fn bytes_repeat()
    ensures { (x q i : ℕ) → byte_by x (256 * q + i) ≡ byte_by x i }
{}

/// There is a capture for each sender, with as many frames as there are to be, and the file that is written for it is
/// read as these frames.
pub fn each_sender_has_its_frames()
    ensures senders { (t : Traffic) → length (generated t) ≡ t.senders }
    ensures frames { (t : Traffic) → All (λ fs. length fs ≡ t.frames) (generated t) }
    ensures count { (t : Traffic) → frame_count t ≡ t.senders * t.frames }
    ensures fit { (t : Traffic) → t.senders < 2 ^ 32 → t.frames < 2 ^ 32 → All (λ fs. AllByRecursion Fits fs) (generated t) }
    ensures files { (t : Traffic) → t.senders < 2 ^ 32 → t.frames < 2 ^ 32 → All (λ fs. IsFile (written fs) fs) (generated t) }
{}

/// Traffic that fits is within the limits of a run.
pub fn what_fits_is_within_the_limits()
    ensures frames { (t : Traffic) → measure_of t ≡ measured.Fits → frame_count t ≤ 1000000 }
    ensures file { (t : Traffic) → measure_of t ≡ measured.Fits → All (λ fs. length (written fs) ≤ 67108864) (generated t) }
    ensures all { (t : Traffic) → measure_of t ≡ measured.Fits → sum (sizes t) ≤ 134217728 }
{}
