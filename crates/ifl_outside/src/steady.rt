ghost use Rattle.std.specs.Prelude.{◌≡◌, ◌++◌, [], ℕ, take, Some, is_ok, IfOk, IfSome, OnOk, if◌then◌else◌};
ghost use Rattle.ifl_outside.specs.Entries.{files_of};
ghost use Rattle.ifl_outside.specs.Files.{held, put, SameBut};
ghost use Rattle.ifl_outside.specs.Told.{BothTold};
ghost use Rattle.ifl_outside.specs.Causes.{HasCause};

use crate::entry::{FileEntry, fetch_entry, put_entry};
use crate::fault::HostError;
use crate::host::{Fetch, Host};
use ifl_base::NoMemory;
use std::alloc::Global;
use std::marker::Model;

/// A host in memory that never fails: its count of faults is 0 for ever, so it never answers `Failed`.
#[derive(Drop)]
pub struct SteadyHost {
    files: Vec<FileEntry>,
    printed: Vec<u8>,
}

impl Model for SteadyHost {
    ghost use Rattle.ifl_outside.specs.Entries.{files_of};
    ghost use Rattle.ifl_outside.specs.Memory.{SteadyState};

    ghost Value = { SteadyState };

    ghost view = { λ h. record { files = files_of h.files.items; printed = h.printed.items } };
}

impl SteadyHost {
    /// A host with these files.
    pub fn new(alloc: Global, files: Vec<FileEntry>) -> Result<SteadyHost, NoMemory>
        ensures { IfOk result (λ h. h ≡ record { files = files_of files.items; printed = [] }) }
    {
        Ok(SteadyHost {
            files,
            printed: Vec::new(alloc),
        })
    }

    /// All entries, in order.
    pub fn files(&self) -> &[FileEntry]
        ensures { files_of result.now ≡ self.now.files }
    {
        &self.files
    }

    /// What was printed so far.
    pub fn printed(&self) -> &[u8]
        ensures { result.now ≡ self.now.printed }
    {
        &self.printed
    }
}

impl Host for SteadyHost {
    ghost faults = { λ _. 0 };

    ghost files = { λ s. Some s.files };

    ghost printed = { λ s. Some s.printed };

    fn read(&mut self, alloc: Global, name: &str, limit: u64) -> Result<Fetch, HostError> {
        Ok(fetch_entry(alloc, &self.files, name, limit)?)
    }

    fn write(&mut self, alloc: Global, name: &str, bytes: &[u8]) -> Result<(), HostError>
        ensures written { OnOk result (IfSome (Some self.new.files) (λ fs. held fs name.now ≡ Some bytes.now)) }
        ensures others { BothTold (Some self.old.files) (Some self.new.files) (SameBut name.now) }
        ensures printed { Some self.new.printed ≡ Some self.old.printed }
        ensures cause { HasCause 0 0 result }
        // Later entries of the name stay too, and without memory all do.
        ensures exact { self.new ≡ record self.old { files = if is_ok result then put name.now bytes.now self.old.files else self.old.files } }
    {
        put_entry(alloc, &mut self.files, name, bytes)?;
        Ok(())
    }

    fn print(&mut self, _alloc: Global, bytes: &[u8]) -> Result<(), HostError>
        ensures appended { OnOk result (BothTold (Some self.old.printed) (Some self.new.printed) (λ was now. now ≡ was ++ bytes.now)) }
        ensures prefix { BothTold (Some self.old.printed) (Some self.new.printed) (λ was now. (k : ℕ) × (now ≡ was ++ take k bytes.now)) }
        ensures files { Some self.new.files ≡ Some self.old.files }
        ensures cause { HasCause 0 0 result }
        ensures exact { self.new ≡ record self.old { printed = if is_ok result then self.old.printed ++ bytes.now else self.old.printed } }
    {
        self.printed.extend_from_slice(bytes)?;
        Ok(())
    }
}
