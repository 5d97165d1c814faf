ghost use Rattle.std.specs.Prelude.{◌≡◌, ◌≤◌, length, map, option_map, IfOk};
ghost use Rattle.std.specs.String.{string_bytes};
ghost use Rattle.ifl_outside.specs.Causes.{Rose};
ghost use Rattle.ifl_engine.specs.Read.{names_of};
ghost use Rattle.ifl_engine.specs.Account.{ForAccount};
ghost use Rattle.ifl_engine.specs.Loading.{each_from, file_at, settings_file, capture_file, bytes_read};
ghost use Rattle.ifl_engine.specs.Steps.{AreWithin, IsRead, IsReadFailed};
ghost use Rattle.ifl_engine.specs.declared.stop.Input.TheVariants as input;
ghost use Rattle.ifl_engine.specs.Loaded.{bytes_of, each_bytes, bytes_seen};

use crate::stop::{Input, Stop};
use ifl_base::FILE_MAX;
use ifl_conf::SendWords;
use ifl_outside::{Fetch, Host, HostError};
use std::alloc::Global;

/// The most bytes of a settings file.
const SETTINGS_MAX: u64 = 65_536;

/// The bytes of the files that `send` reads.
#[derive(Debug, Drop)]
pub struct Files {
    /// The settings file, where one is named.
    pub settings: Option<Vec<u8>>,
    /// The captures, in the order of the FILE words.
    pub captures: Vec<Vec<u8>>,
}

/// Reads a file of at most `limit` bytes.
pub fn read_file<H: Host>(
    alloc: Global,
    which: Input,
    name: &str,
    limit: u64,
    host: &mut H,
) -> Result<Vec<u8>, Stop>
    ensures read { ForAccount (H.files host.old) (Rose (H.faults host.old) (H.faults host.new)) (λ source. IsRead bytes_of result (file_at which limit (source which name.now))) }
    ensures within { IfOk result (λ v. length v.items ≤ limit) }
    ensures files { H.files host.new ≡ H.files host.old }
    ensures printed { H.printed host.new ≡ H.printed host.old }
    ensures later { H.faults host.old ≤ H.faults host.new }
    ensures failed { IsReadFailed result → Rose (H.faults host.old) (H.faults host.new) }
{
    match host.read(alloc, name, limit) {
        Ok(Fetch::Bytes(bytes)) => Ok(bytes.into_vec()),
        Ok(Fetch::Absent) => Err(Stop::Absent(which)),
        Ok(Fetch::TooLong) => Err(Stop::TooLong(which)),
        Err(HostError::Failed) => Err(Stop::ReadFailed(which)),
        Err(HostError::Memory) => Err(Stop::Memory),
    }
}

/// Reads the settings file, where one is named.
fn read_settings_file<H: Host>(
    alloc: Global,
    names: &SendWords,
    host: &mut H,
) -> Result<Option<Vec<u8>>, Stop>
    ensures read { ForAccount (H.files host.old) (Rose (H.faults host.old) (H.faults host.new)) (λ source. IsRead (option_map bytes_of) result (settings_file (names_of names.now).settings (source input.Settings))) }
    ensures files { H.files host.new ≡ H.files host.old }
    ensures printed { H.printed host.new ≡ H.printed host.old }
    ensures later { H.faults host.old ≤ H.faults host.new }
    ensures failed { IsReadFailed result → Rose (H.faults host.old) (H.faults host.new) }
{
    match &names.settings {
        None => Ok(None),
        Some(name) => {
            let bytes = read_file(alloc, Input::Settings, name.as_str(), SETTINGS_MAX, host)?;
            Ok(Some(bytes))
        }
    }
}

/// Reads the FILEs, in their order.
fn read_captures<H: Host>(
    alloc: Global,
    names: &[String],
    host: &mut H,
) -> Result<Vec<Vec<u8>>, Stop>
    requires { length names.now ≤ 16 }
    ensures read { ForAccount (H.files host.old) (Rose (H.faults host.old) (H.faults host.new)) (λ source. IsRead each_bytes result (each_from (capture_file source) 0 (map string_bytes names.now))) }
    ensures within { IfOk result (λ v. (length v.items ≡ length names.now) × AreWithin v.items) }
    ensures files { H.files host.new ≡ H.files host.old }
    ensures printed { H.printed host.new ≡ H.printed host.old }
    ensures later { H.faults host.old ≤ H.faults host.new }
    ensures failed { IsReadFailed result → Rose (H.faults host.old) (H.faults host.new) }
{
    let Ok(mut captures) = Vec::with_capacity(alloc, names.len()) else {
        return Err(Stop::Memory);
    };
    for i in 0..names.len() {
        let bytes = read_file(
            alloc,
            Input::File(i as u32),
            names[i].as_str(),
            FILE_MAX,
            host,
        )?;
        captures.push_reserved(bytes);
    }
    Ok(captures)
}

/// Reads the settings file first, and then the FILEs.
pub fn read_files<H: Host>(alloc: Global, names: &SendWords, host: &mut H) -> Result<Files, Stop>
    requires { length names.now.files.items ≤ 16 }
    ensures read { ForAccount (H.files host.old) (Rose (H.faults host.old) (H.faults host.new)) (λ source. IsRead bytes_seen result (bytes_read (names_of names.now) source)) }
    ensures within { IfOk result (λ f. (length f.captures.items ≡ length names.now.files.items) × AreWithin f.captures.items) }
    ensures files { H.files host.new ≡ H.files host.old }
    ensures printed { H.printed host.new ≡ H.printed host.old }
    ensures later { H.faults host.old ≤ H.faults host.new }
    ensures failed { IsReadFailed result → Rose (H.faults host.old) (H.faults host.new) }
{
    let settings = read_settings_file(alloc, names, host)?;
    let captures = read_captures(alloc, names.files.as_slice(), host)?;
    Ok(Files { settings, captures })
}
