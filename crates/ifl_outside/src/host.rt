ghost use Rattle.std.specs.Prelude.{◌≡◌, ◌++◌, ℕ, List, Option, take, OnOk, IfOk, IfSome};
ghost use Rattle.ifl_outside.specs.Files.{held, SameBut};
ghost use Rattle.ifl_outside.specs.Told.{BothTold};
ghost use Rattle.ifl_outside.specs.Causes.{HasCause};
ghost use Rattle.ifl_outside.specs.Fetched.{IsFetch, IsWithin};

use crate::fault::HostError;
use ifl_base::Items;
use std::alloc::Global;

/// What a read finds.
#[derive(Drop)]
pub enum Fetch {
    /// The file's bytes, which the caller owns.
    Bytes(Items<u8>),
    /// There is no such file.
    Absent,
    /// The file is longer than the limit.
    TooLong,
}

/// Files by name, and standard output.
///
/// Every call may answer `HostError::Memory`, and `HostError::Failed` only where the count of faults rose in
/// it. A count that has come to the end of its type counts as risen.
pub trait Host {
    /// How often the host has failed. It never falls.
    ghost faults: { Self → ℕ };

    /// The files that it holds, each a name with its bytes, where it tells that.
    ghost files: { Self → Option (List (List ℕ × List ℕ)) };

    /// The bytes that were printed so far, where it tells that.
    ghost printed: { Self → Option (List ℕ) };

    /// Reads the whole file `name`, if it has at most `limit` bytes.
    fn read(&mut self, alloc: Global, name: &str, limit: u64) -> Result<Fetch, HostError>
        // The bytes are those of the file, and `Absent` and `TooLong` come exactly where it is so.
        ensures fetched { IfSome (files self.old) (λ fs. IfOk result (IsFetch (held fs name.now) limit)) }
        // Nor is a file that the host does not tell of longer than the limit.
        ensures within { IfOk result (IsWithin limit) }
        ensures files { files self.new ≡ files self.old }
        ensures printed { printed self.new ≡ printed self.old }
        ensures cause { HasCause (faults self.old) (faults self.new) result };

    /// Makes the file `name` hold exactly these bytes. After a refusal it may hold anything.
    fn write(&mut self, alloc: Global, name: &str, bytes: &[u8]) -> Result<(), HostError>
        ensures written { OnOk result (IfSome (files self.new) (λ fs. held fs name.now ≡ Some bytes.now)) }
        // Every other file stays, after a refusal too.
        ensures others { BothTold (files self.old) (files self.new) (SameBut name.now) }
        ensures printed { printed self.new ≡ printed self.old }
        ensures cause { HasCause (faults self.old) (faults self.new) result };

    /// Appends these bytes to what was printed. After a refusal the first of them may have been.
    fn print(&mut self, alloc: Global, bytes: &[u8]) -> Result<(), HostError>
        ensures appended { OnOk result (BothTold (printed self.old) (printed self.new) (λ was now. now ≡ was ++ bytes.now)) }
        ensures prefix { BothTold (printed self.old) (printed self.new) (λ was now. (k : ℕ) × (now ≡ was ++ take k bytes.now)) }
        ensures files { files self.new ≡ files self.old }
        ensures cause { HasCause (faults self.old) (faults self.new) result };
}
