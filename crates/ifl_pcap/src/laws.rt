//! Laws above the definitions, in the format's own words. Each is a function that does nothing, and its contract
//! is the law.

ghost use Rattle.std.specs.Prelude.{◌≡◌, ◌<◌, ◌≤◌, ◌+◌, ◌*◌, ◌⊎◌, ℕ, List, length, get_or};
ghost use Rattle.std.specs.List.{AllByRecursion};
ghost use Rattle.ifl_pcap.specs.declared.fault.CaptureWhy.{CaptureWhy};
ghost use Rattle.ifl_pcap.specs.declared.frame.Frame.{Frame};
ghost use Rattle.ifl_pcap.specs.File.{Fits, IsFile, IsShort, written};
ghost use Rattle.ifl_pcap.specs.Faults.{IsFirstFault};

/// All bytes are the file of some frames or have a first fault, and never both; a file has one list of frames,
/// and what is no file has one first fault.
pub fn bytes_are_a_file_or_have_one_first_fault()
    ensures either { (bytes : List ℕ) → ((i : ℕ) → get_or bytes i 0 < 256) → ((fs : List Frame) × IsFile bytes fs) ⊎ ((at : ℕ) × (why : CaptureWhy) × IsFirstFault bytes at why) }
    ensures not_both { (bytes : List ℕ) (fs : List Frame) (at : ℕ) (why : CaptureWhy) → IsFile bytes fs → IsFirstFault bytes at why → ⊥ }
    ensures one_list { (bytes : List ℕ) (fs gs : List Frame) → IsFile bytes fs → IsFile bytes gs → fs ≡ gs }
    ensures one_fault { (bytes : List ℕ) (at place : ℕ) (why other : CaptureWhy) → IsFirstFault bytes at why → IsFirstFault bytes place other → (at ≡ place) × (why ≡ other) }
{}

/// The file that is written for frames is a file of these frames.
pub fn written_is_a_file()
    ensures { (fs : List Frame) → AllByRecursion Fits fs → IsFile (written fs) fs }
{}

/// The frames of a file fit in records again, and there are no more than its bytes allow.
pub fn frames_of_a_file_fit()
    ensures fit { (bytes : List ℕ) (fs : List Frame) → IsFile bytes fs → AllByRecursion Fits fs }
    ensures short { (bytes : List ℕ) (fs : List Frame) → IsFile bytes fs → AllByRecursion IsShort fs }
    ensures few { (bytes : List ℕ) (fs : List Frame) → IsFile bytes fs → 24 + 16 * length fs ≤ length bytes }
{}
