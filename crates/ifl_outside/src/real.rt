ghost use Rattle.std.specs.Prelude.{◌≡◌, ◌≤◌, Some, None, IsOkUnless, IfOk, IfSome};
ghost use Rattle.ifl_outside.specs.Causes.{Rose};
ghost use Rattle.ifl_outside.specs.Fetched.{IsFetch, IsWithin};

use crate::fault::HostError;
use crate::host::{Fetch, Host};
use ifl_base::Items;
use std::alloc::Global;
use std::fs::OpenFile;
use std::io::{ErrorKind, Read, Write};
use std::rt::Files;
use std::{fs, io};

/// The bytes that one read of a real file asks for.
const PIECE: usize = 65_536;

/// The system's files and standard output. It tells no contents, and counts each error.
///
/// This is the trusted edge: no clause says that a real file holds what was written to it.
#[derive(Drop)]
pub struct RealHost<R> {
    rt: R,
    faults: u64,
}

impl<R> RealHost<R> {
    /// The host behind this runtime, which it keeps.
    pub fn new(rt: R) -> RealHost<R> {
        RealHost { rt, faults: 0 }
    }

    /// Counts a fault.
    fn failed(&mut self) -> HostError
        ensures said { result ≡ HostError.Failed }
        ensures later { self.old.faults ≤ self.new.faults }
        ensures rose { Rose self.old.faults self.new.faults }
    {
        self.faults = self.faults.saturating_add(1);
        HostError::Failed
    }
}

/// The length that the system gives for a file, if it is not above the limit: room to begin with.
fn room_for<F: OpenFile>(file: &F, limit: u64) -> usize
    ensures { result ≤ limit }
{
    match file.metadata() {
        Ok(metadata) => metadata.len().min(limit) as usize,
        Err(_) => 0,
    }
}

/// What the reader has left, or that it is more than the limit, or nothing where the reader fails.
fn read_up_to<F: Read + OpenFile>(
    alloc: Global,
    file: &mut F,
    limit: u64,
) -> Result<Option<Fetch>, HostError>
    ensures memory { IsOkUnless result HostError.Memory }
    ensures within { IfOk result (λ o. IfSome o (IsWithin limit)) }
    ensures exact { IfOk result (λ o. IfSome o (λ found. IfSome (F.remaining file.old) (λ left. IsFetch (Some left) limit found))) }
{
    let mut bytes = Vec::with_capacity(alloc, room_for(file, limit))?;
    let mut piece = [0u8; PIECE];
    'pieces: for _ in 0..u64::MAX {
        match file.read(&mut piece) {
            Ok(0) => return Ok(Some(Fetch::Bytes(Items::from_vec(bytes)))),
            Ok(n) => {
                if limit - (bytes.len() as u64) < n as u64 {
                    return Ok(Some(Fetch::TooLong));
                }
                bytes.extend_from_slice(&piece[..n])?;
            }
            Err(e) => {
                if e.kind() != ErrorKind::Interrupted {
                    return Ok(None);
                }
            }
        }
    }
    Ok(None)
}

impl<R: Files + Print> Host for RealHost<R> {
    ghost faults = { λ s. s.faults };

    ghost files = { λ _. None };

    ghost printed = { λ _. None };

    fn read(&mut self, alloc: Global, name: &str, limit: u64) -> Result<Fetch, HostError> {
        match fs::open(&self.rt, name) {
            Ok(file) => {
                let mut file = file;
                match read_up_to(alloc, &mut file, limit)? {
                    Some(fetch) => Ok(fetch),
                    None => Err(self.failed()),
                }
            }
            Err(e) => {
                if e.kind() == ErrorKind::NotFound {
                    Ok(Fetch::Absent)
                } else {
                    Err(self.failed())
                }
            }
        }
    }

    fn write(&mut self, _alloc: Global, name: &str, bytes: &[u8]) -> Result<(), HostError> {
        match fs::write(&self.rt, name, bytes) {
            Ok(()) => Ok(()),
            Err(_) => Err(self.failed()),
        }
    }

    fn print(&mut self, _alloc: Global, bytes: &[u8]) -> Result<(), HostError> {
        match io::writer(&self.rt).write_all(bytes) {
            Ok(()) => Ok(()),
            Err(_) => Err(self.failed()),
        }
    }
}
