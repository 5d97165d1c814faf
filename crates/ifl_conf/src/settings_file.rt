ghost use Rattle.std.specs.Prelude.{◌<◌, ◌≡◌, ◌≢◌, ◌≤◌, ◌+◌, Some, None, Option, MatchResult, IfNone, IfOk, IfErr, true};
ghost use Rattle.std.specs.List.{AllByRecursion};
ghost use Rattle.toml.specs.View.{table_view};
ghost use Rattle.ifl_conf.specs.Keys.{Setting, adapter_keys, frames_keys, pool_keys};
ghost use Rattle.ifl_conf.specs.Documents.{first_fault, first_conflict, set_in, fault_of, set_by};
ghost use Rattle.ifl_conf.specs.declared.keys.KeyName.{KeyName as Keyed};
ghost use Rattle.ifl_conf.specs.declared.setting_fault.SettingFault.TheVariants.{Memory};
ghost use Rattle.ifl_conf.specs.Kept.{setting, adapter_setting, frames_setting, pool_setting};
ghost use Rattle.ifl_conf.specs.Parts.{parts};

use crate::choices::{Policy, Start};
use crate::document::{document_in, names_known};
use crate::keys::KeyName;
use crate::setting_fault::SettingFault;
use crate::settings::{AdapterSettings, FramesSettings, PoolSettings, Settings};
use crate::tables::{adapter_in, frames_in, pool_in, ring_in, rx_in, stop_in};
use crate::values::number_in;
use ifl_base::CHAIN_MAX;
use std::alloc::Global;
use toml::Table;

/// Reads the bytes of a settings file: a TOML document, in which each key that is left out has its standard value.
///
/// A fault is the first of the file, in the order of [`SettingFault`] and, among keys, in that of [`KeyName`]; the
/// rules over several keys come after all keys. `Memory` is answered only where there was no memory.
pub fn read_settings(alloc: Global, bytes: &[u8]) -> Result<Settings, SettingFault>
    ensures valid { IfOk result (λ _. fault_of bytes.now ≡ None) }
    ensures set { IfOk result (λ s. (k : Keyed) → set_by bytes.now k ≡ Some (setting s k)) }
    ensures fault { IfErr result (λ e. e ≢ Memory → fault_of bytes.now ≡ Some e) }
{
    let table = document_in(alloc, bytes)?;
    settings_in(&table)
}

/// The settings of a document, or its first fault.
fn settings_in(table: &Table) -> Result<Settings, SettingFault>
    ensures { MatchResult result
        (λ s. (first_fault (table_view table.now) ≡ None) × ((k : Keyed) → set_in (table_view table.now) k ≡ Some (setting s k)))
        (λ e. first_fault (table_view table.now) ≡ Some e) }
{
    if !names_known(table) {
        return Err(SettingFault::Unknown);
    }
    let version = number_in(table, KeyName::Version, 1, 1, 1)?;
    let ring = ring_in(table)?;
    let adapter = adapter_in(table)?;
    let frames = frames_in(table)?;
    let pool = pool_in(table)?;
    let stop = stop_in(table)?;
    let rx = rx_in(table)?;
    match conflict(&adapter, &frames, &pool) {
        Some(key) => Err(SettingFault::Key(key)),
        None => Ok(Settings {
            version,
            ring,
            adapter,
            frames,
            pool,
            stop,
            rx,
        }),
    }
}

/// The key at fault of the first rule over several keys that is broken.
fn conflict(
    adapter: &AdapterSettings,
    frames: &FramesSettings,
    pool: &PoolSettings,
) -> Option<KeyName>
    ensures result { (v : Keyed → Option Setting) → AllByRecursion (λ k. v k ≡ Some (adapter_setting adapter.now k)) adapter_keys
        → AllByRecursion (λ k. v k ≡ Some (frames_setting frames.now k)) frames_keys
        → AllByRecursion (λ k. v k ≡ Some (pool_setting pool.now k)) pool_keys → first_conflict v ≡ result }
    ensures room { IfNone result (adapter.now.max_segs + 4 ≤ adapter.now.descriptors) }
    ensures start { IfNone result (adapter.now.start ≡ Start.AfterSenders → frames.now.policy ≡ Policy.Drop) }
    ensures segs { IfNone result (parts frames.now.max_frame pool.now.seg_bytes ≤ 64) }
    ensures clusters { IfNone result (parts frames.now.max_frame pool.now.seg_bytes ≤ pool.now.clusters) }
{
    if adapter.descriptors < adapter.max_segs + 4 {
        return Some(KeyName::AdapterDescriptors);
    }
    if adapter.start == Start::AfterSenders && frames.policy == Policy::Retry {
        return Some(KeyName::AdapterStart);
    }
    let segs = parts(frames.max_frame, pool.seg_bytes);
    if segs > CHAIN_MAX {
        return Some(KeyName::PoolSegBytes);
    }
    if pool.clusters < segs {
        return Some(KeyName::PoolClusters);
    }
    None
}

/// How many parts of this size something falls into.
fn parts(whole: u32, part: u32) -> u32
    requires { 0 < part }
    ensures { result ≡ parts whole part }
{
    whole.div_ceil(part)
}
