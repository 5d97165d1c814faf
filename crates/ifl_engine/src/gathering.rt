ghost use Rattle.std.specs.Prelude.{◌≡◌, ◌<◌, ◌≤◌, All, length, map, option_map, sum_by, IfOk};
ghost use Rattle.ifl_outside.specs.Causes.{Rose};
ghost use Rattle.ifl_engine.specs.Read.{names_of};
ghost use Rattle.ifl_engine.specs.Account.{ForAccount};
ghost use Rattle.ifl_engine.specs.Loading.{each_from, settings_in, capture_in, load_in, read_of};
ghost use Rattle.ifl_engine.specs.Loaded.{bytes_of, each_bytes, bytes_seen, chosen, frames_of, each_frames, load_seen};
ghost use Rattle.ifl_engine.specs.Steps.{AreWithin, IsSmall, AreSmall, IsRead, IsReadFailed};

use crate::reading::{Files, read_files};
use crate::stop::{Stop, settings_stop};
use ifl_base::{ALL_MAX, FILES_MAX, FRAMES_MAX};
use ifl_conf::{SendWords, Settings, read_settings};
use ifl_outside::Host;
use ifl_pcap::{Capture, CaptureFault, read_capture};
use std::alloc::Global;

/// What `send` goes by.
#[derive(Debug, Drop)]
pub struct Load {
    /// The settings: those of the settings file, or the standard ones.
    pub settings: Settings,
    /// The captures whose frames are sent, one for each sender.
    pub captures: Vec<Capture>,
}

/// How many bytes all files have.
fn byte_count(files: &[Vec<u8>]) -> u64
    requires { (length files.now ≤ 16) × AreWithin files.now }
    ensures { result ≡ sum_by (λ f. length f.items) files.now }
{
    let mut count = 0;
    for file in files {
        count += file.len() as u64;
    }
    count
}

/// How many frames all captures have.
pub fn frame_count(captures: &[Capture]) -> usize
    requires { (length captures.now ≤ 16) × All IsSmall (map frames_of captures.now) }
    ensures { result ≡ sum_by (λ c. length c.frames) captures.now }
{
    let mut count = 0;
    for capture in captures {
        count += capture.len();
    }
    count
}

/// The settings: as the settings file has them, or the standard ones.
fn settings_of(alloc: Global, file: &Option<Vec<u8>>) -> Result<Settings, Stop>
    ensures read { IsRead chosen result (settings_in (option_map bytes_of file.now)) }
    ensures no_fault { IsReadFailed result → ⊥ }
{
    match file {
        None => Ok(Settings::standard()),
        Some(bytes) => match read_settings(alloc, bytes) {
            Ok(settings) => Ok(settings),
            Err(fault) => Err(settings_stop(fault)),
        },
    }
}

/// The capture of the bytes of the FILE of this number, which it owns.
fn parsed(alloc: Global, number: u32, bytes: Vec<u8>) -> Result<Capture, Stop>
    requires { length bytes.items ≤ 67108864 }
    ensures read { IsRead frames_of result (capture_in number bytes.items) }
    ensures small { IfOk result (λ c. IsSmall c.frames) }
    ensures no_fault { IsReadFailed result → ⊥ }
{
    match read_capture(alloc, bytes) {
        Ok(capture) => Ok(capture),
        Err(CaptureFault::Bad { at, why }) => Err(Stop::Capture {
            file: number,
            at,
            why,
        }),
        Err(CaptureFault::Memory) => Err(Stop::Memory),
    }
}

/// The captures of the files' bytes, in their order.
fn all_parsed(alloc: Global, files: Vec<Vec<u8>>) -> Result<Vec<Capture>, Stop>
    requires { (length files.items ≤ 16) × AreWithin files.items }
    ensures read { IsRead each_frames result (each_from capture_in 0 (each_bytes files)) }
    ensures small { IfOk result (λ v. (length v.items ≡ length files.items) × All IsSmall (each_frames v)) }
    ensures no_fault { IsReadFailed result → ⊥ }
{
    let Ok(mut captures) = Vec::with_capacity(alloc, files.len()) else {
        return Err(Stop::Memory);
    };
    let mut number = 0;
    for bytes in files {
        let capture = parsed(alloc, number, bytes)?;
        captures.push_reserved(capture);
        number += 1;
    }
    Ok(captures)
}

/// What the files say. Their bytes are counted first, the settings are looked at before the captures, and the frames
/// are counted last.
fn loaded(alloc: Global, files: Files) -> Result<Load, Stop>
    requires { (0 < length files.captures.items) × (length files.captures.items ≤ 16) × AreWithin files.captures.items }
    ensures read { IsRead load_seen result (load_in (bytes_seen files)) }
    ensures small { IfOk result (λ l. AreSmall (each_frames l.captures)) }
    ensures no_fault { IsReadFailed result → ⊥ }
{
    let Files { settings, captures } = files;
    if ALL_MAX < byte_count(&captures) {
        return Err(Stop::TooManyBytes);
    }
    let settings = settings_of(alloc, &settings)?;
    let captures = all_parsed(alloc, captures)?;
    if (FRAMES_MAX as usize) < frame_count(&captures) {
        return Err(Stop::TooManyFrames);
    }
    Ok(Load { settings, captures })
}

/// Reads the files of `send`, where there are not too many. Each capture owns its file's bytes.
pub fn gathered<H: Host>(alloc: Global, names: &SendWords, host: &mut H) -> Result<Load, Stop>
    requires { 0 < length names.now.files.items }
    ensures read { ForAccount (H.files host.old) (Rose (H.faults host.old) (H.faults host.new)) (λ source. IsRead load_seen result (read_of (names_of names.now) source)) }
    ensures small { IfOk result (λ l. AreSmall (each_frames l.captures)) }
    ensures files { H.files host.new ≡ H.files host.old }
    ensures printed { H.printed host.new ≡ H.printed host.old }
    ensures later { H.faults host.old ≤ H.faults host.new }
    ensures failed { IsReadFailed result → Rose (H.faults host.old) (H.faults host.new) }
{
    if (FILES_MAX as usize) < names.files.len() {
        return Err(Stop::TooManyFiles);
    }
    let files = read_files(alloc, names, host)?;
    loaded(alloc, files)
}
