ghost use Rattle.std.specs.Prelude.{◌≡◌, Some, IfOk, OnOk, OnErr};
ghost use Rattle.std.specs.Str.{bytes_eq};
ghost use Rattle.std.specs.String.{string_bytes};
ghost use Rattle.std.specs.List.{position};
ghost use Rattle.ifl_outside.specs.Entries.{files_of};
ghost use Rattle.ifl_outside.specs.Files.{held, put, SameBut};
ghost use Rattle.ifl_outside.specs.Fetched.{IsFetch, IsWithin};

use crate::host::Fetch;
use ifl_base::Items;
use std::alloc::{AllocError, Global};

/// A file of a host in memory.
#[derive(Drop)]
pub struct FileEntry {
    pub name: String,
    pub bytes: Items<u8>,
}

/// Where the first entry of that name stands.
fn find(files: &[FileEntry], name: &str) -> Option<usize>
    ensures { result ≡ position (λ e. bytes_eq (string_bytes e.name) name.now) files.now }
{
    files.iter().position(|e| e.name.as_str() == name)
}

/// What a read of the first entry of that name finds.
pub fn fetch_entry(
    alloc: Global,
    files: &[FileEntry],
    name: &str,
    limit: u64,
) -> Result<Fetch, AllocError>
    ensures fetched { IfOk result (IsFetch (held (files_of files.now) name.now) limit) }
    ensures within { IfOk result (IsWithin limit) }
{
    match find(files, name) {
        None => Ok(Fetch::Absent),
        Some(i) => {
            let bytes = &files[i].bytes;
            if bytes.len() as u64 > limit {
                Ok(Fetch::TooLong)
            } else {
                let copy = Vec::from_slice(alloc, bytes.as_slice())?;
                Ok(Fetch::Bytes(Items::from_vec(copy)))
            }
        }
    }
}

/// Puts the bytes into the first entry of that name, or behind all entries where there is none.
pub fn put_entry(
    alloc: Global,
    files: &mut Vec<FileEntry>,
    name: &str,
    bytes: &[u8],
) -> Result<(), AllocError>
    ensures put { OnOk result (files_of files.new.items ≡ put name.now bytes.now (files_of files.old.items)) }
    ensures written { OnOk result (held (files_of files.new.items) name.now ≡ Some bytes.now) }
    ensures others { SameBut name.now (files_of files.old.items) (files_of files.new.items) }
    ensures err { OnErr result (files_of files.new.items ≡ files_of files.old.items) }
{
    let copy = Items::from_vec(Vec::from_slice(alloc, bytes)?);
    match find(files, name) {
        Some(i) => {
            files[i].bytes = copy;
        }
        None => {
            let name = String::from_str(alloc, name)?;
            files.push(FileEntry { name, bytes: copy })?;
        }
    }
    Ok(())
}
