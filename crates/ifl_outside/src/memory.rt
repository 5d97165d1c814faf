ghost use Rattle.std.specs.Prelude.{◌≡◌, ◌≤◌, ◌++◌, ℕ, take, Some, is_ok, IfOk, OnOk, IfSome, IsErrOf, IsOkUnless};
ghost use Rattle.std.specs.Bool.{OnTrue, OnFalse};
ghost use Rattle.ifl_outside.specs.Entries.{files_of};
ghost use Rattle.ifl_outside.specs.Files.{held, SameBut};
ghost use Rattle.ifl_outside.specs.Told.{BothTold};
ghost use Rattle.ifl_outside.specs.Causes.{HasCause, Rose};
ghost use Rattle.ifl_outside.specs.Fetched.{IsFetch, IsWithin};
ghost use Rattle.ifl_outside.specs.Memory.{is_failing, fresh, after_call, after_failure, after_write, after_print};

use crate::entry::{FileEntry, fetch_entry, put_entry};
use crate::fault::HostError;
use crate::host::{Fetch, Host};
use ifl_base::NoMemory;
use std::alloc::Global;
use std::marker::Model;

/// A host in memory, which fails the calls whose numbers it is given.
///
/// Calls of `read`, `write` and `print` are counted together, from 0. A name that stands in several entries
/// means the first of them, and the later ones stay as they are.
#[derive(Drop)]
pub struct MemoryHost {
    files: Vec<FileEntry>,
    failing: Vec<u32>,
    calls: u64,
    faults: u64,
    printed: Vec<u8>,
}

impl Model for MemoryHost {
    ghost use Rattle.ifl_outside.specs.Entries.{files_of};
    ghost use Rattle.ifl_outside.specs.Memory.{MemoryState};

    ghost Value = { MemoryState };

    ghost view = { λ h. record { files = files_of h.files.items; failing = h.failing.items; calls = h.calls; faults = h.faults; printed = h.printed.items } };
}

impl MemoryHost {
    /// A host with these files, of which the calls numbered in `fail` will fail.
    pub fn new(alloc: Global, files: Vec<FileEntry>, fail: Vec<u32>) -> Result<MemoryHost, NoMemory>
        ensures { IfOk result (λ h. h ≡ fresh (files_of files.items) fail.items) }
    {
        Ok(MemoryHost {
            files,
            failing: fail,
            calls: 0,
            faults: 0,
            printed: Vec::new(alloc),
        })
    }

    /// All entries, in order.
    pub fn files(&self) -> &[FileEntry]
        ensures { files_of result.now ≡ self.now.files }
    {
        &self.files
    }

    /// What was printed so far.
    pub fn printed(&self) -> &[u8]
        ensures { result.now ≡ self.now.printed }
    {
        &self.printed
    }

    /// Counts a call, and says whether it is to fail.
    fn fails(&mut self) -> bool
        ensures failing { result ≡ is_failing self.old }
        ensures fault { OnTrue result (self.new ≡ after_failure self.old) }
        ensures call { OnFalse result (self.new ≡ after_call self.old) }
        ensures later { self.old.faults ≤ self.new.faults }
        ensures rose { OnTrue result (Rose self.old.faults self.new.faults) }
    {
        let call = self.calls;
        self.calls = call.saturating_add(1);
        let failing = self.failing.iter().any(|n| *n as u64 == call);
        if failing {
            self.faults = self.faults.saturating_add(1);
        }
        failing
    }
}

impl Host for MemoryHost {
    ghost faults = { λ s. s.faults };

    ghost files = { λ s. Some s.files };

    ghost printed = { λ s. Some s.printed };

    fn read(&mut self, alloc: Global, name: &str, limit: u64) -> Result<Fetch, HostError>
        ensures fetched { IfSome (Some self.old.files) (λ fs. IfOk result (IsFetch (held fs name.now) limit)) }
        ensures within { IfOk result (IsWithin limit) }
        ensures files { Some self.new.files ≡ Some self.old.files }
        ensures printed { Some self.new.printed ≡ Some self.old.printed }
        ensures cause { HasCause self.old.faults self.new.faults result }
        // A call that is to fail does, and changes nothing but the counts; any other reads.
        ensures failing { OnTrue (is_failing self.old) (IsErrOf result HostError.Failed × (self.new ≡ after_failure self.old)) }
        ensures working { OnFalse (is_failing self.old) (IsOkUnless result HostError.Memory × (self.new ≡ after_call self.old)) }
    {
        if self.fails() {
            return Err(HostError::Failed);
        }
        Ok(fetch_entry(alloc, &self.files, name, limit)?)
    }

    fn write(&mut self, alloc: Global, name: &str, bytes: &[u8]) -> Result<(), HostError>
        ensures written { OnOk result (IfSome (Some self.new.files) (λ fs. held fs name.now ≡ Some bytes.now)) }
        ensures others { BothTold (Some self.old.files) (Some self.new.files) (SameBut name.now) }
        ensures printed { Some self.new.printed ≡ Some self.old.printed }
        ensures cause { HasCause self.old.faults self.new.faults result }
        // A call that is to fail does, and changes nothing but the counts; any other writes.
        ensures failing { OnTrue (is_failing self.old) (IsErrOf result HostError.Failed × (self.new ≡ after_failure self.old)) }
        ensures working { OnFalse (is_failing self.old) (IsOkUnless result HostError.Memory × (self.new ≡ after_write (is_ok result) name.now bytes.now self.old)) }
    {
        if self.fails() {
            return Err(HostError::Failed);
        }
        put_entry(alloc, &mut self.files, name, bytes)?;
        Ok(())
    }

    fn print(&mut self, _alloc: Global, bytes: &[u8]) -> Result<(), HostError>
        ensures appended { OnOk result (BothTold (Some self.old.printed) (Some self.new.printed) (λ was now. now ≡ was ++ bytes.now)) }
        ensures prefix { BothTold (Some self.old.printed) (Some self.new.printed) (λ was now. (k : ℕ) × (now ≡ was ++ take k bytes.now)) }
        ensures files { Some self.new.files ≡ Some self.old.files }
        ensures cause { HasCause self.old.faults self.new.faults result }
        // A call that is to fail does, and changes nothing but the counts; any other prints.
        ensures failing { OnTrue (is_failing self.old) (IsErrOf result HostError.Failed × (self.new ≡ after_failure self.old)) }
        ensures working { OnFalse (is_failing self.old) (IsOkUnless result HostError.Memory × (self.new ≡ after_print (is_ok result) bytes.now self.old)) }
    {
        if self.fails() {
            return Err(HostError::Failed);
        }
        self.printed.extend_from_slice(bytes)?;
        Ok(())
    }
}
