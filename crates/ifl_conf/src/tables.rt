ghost use Rattle.toml.specs.View.{table_view};
ghost use Rattle.ifl_conf.specs.Keys.{ring_keys, adapter_keys, frames_keys, pool_keys, stop_keys, rx_keys};
ghost use Rattle.ifl_conf.specs.Documents.{AreSetTo};
ghost use Rattle.ifl_conf.specs.Kept.{ring_setting, adapter_setting, frames_setting, pool_setting, stop_setting, rx_setting};

use crate::keys::KeyName;
use crate::setting_fault::SettingFault;
use crate::settings::{
    AdapterSettings, FramesSettings, PoolSettings, RingSettings, RxSettings, StopSettings,
};
use crate::values::{choice_in, flag_in, number_in};
use ifl_base::{CHAIN_MAX, CLUSTER_BYTES, FRAME_MIN, MAX_FRAME, RING_MAX, RING_MIN};
use toml::Table;

/// What the document sets the keys of the ring to.
pub(crate) fn ring_in(table: &Table) -> Result<RingSettings, SettingFault>
    ensures { AreSetTo ring_setting (table_view table.now) ring_keys result }
{
    let size = number_in(table, KeyName::RingSize, RING_MIN, RING_MAX, 2_048)?;
    let budget = number_in(table, KeyName::RingBudget, 0, 65_535, 32)?;
    let abdicate = flag_in(table, KeyName::RingAbdicate, false)?;
    Ok(RingSettings {
        size,
        budget,
        abdicate,
    })
}

/// What the document sets the keys of the adapter to.
pub(crate) fn adapter_in(table: &Table) -> Result<AdapterSettings, SettingFault>
    ensures { AreSetTo adapter_setting (table_view table.now) adapter_keys result }
{
    let kind = choice_in(table)?;
    let descriptors = number_in(table, KeyName::AdapterDescriptors, 8, 32_768, 1_024)?;
    let max_segs = number_in(table, KeyName::AdapterMaxSegs, 1, CHAIN_MAX, 32)?;
    let doorbell_every = number_in(table, KeyName::AdapterDoorbellEvery, 1, 32, 4)?;
    let turn_frames = number_in(table, KeyName::AdapterTurnFrames, 1, 65_535, 64)?;
    let start = choice_in(table)?;
    let hang_after = number_in(table, KeyName::AdapterHangAfter, 0, 1_000_000, 0)?;
    let link_down_after = number_in(table, KeyName::AdapterLinkDownAfter, 0, 1_000_000, 0)?;
    let link_down_turns = number_in(table, KeyName::AdapterLinkDownTurns, 1, 65_535, 16)?;
    Ok(AdapterSettings {
        kind,
        descriptors,
        max_segs,
        doorbell_every,
        turn_frames,
        start,
        hang_after,
        link_down_after,
        link_down_turns,
    })
}

/// What the document sets the keys of frames to.
pub(crate) fn frames_in(table: &Table) -> Result<FramesSettings, SettingFault>
    ensures { AreSetTo frames_setting (table_view table.now) frames_keys result }
{
    let max_frame = number_in(
        table,
        KeyName::FramesMaxFrame,
        FRAME_MIN,
        MAX_FRAME,
        MAX_FRAME,
    )?;
    let policy = choice_in(table)?;
    Ok(FramesSettings { max_frame, policy })
}

/// What the document sets the keys of the pool to.
pub(crate) fn pool_in(table: &Table) -> Result<PoolSettings, SettingFault>
    ensures { AreSetTo pool_setting (table_view table.now) pool_keys result }
{
    let clusters = number_in(table, KeyName::PoolClusters, 1, 65_536, 4_096)?;
    let seg_bytes = number_in(
        table,
        KeyName::PoolSegBytes,
        64,
        CLUSTER_BYTES,
        CLUSTER_BYTES,
    )?;
    Ok(PoolSettings {
        clusters,
        seg_bytes,
    })
}

/// What the document sets the keys of the stop to.
pub(crate) fn stop_in(table: &Table) -> Result<StopSettings, SettingFault>
    ensures { AreSetTo stop_setting (table_view table.now) stop_keys result }
{
    let mode = choice_in(table)?;
    let after = number_in(table, KeyName::StopAfter, 0, 1_000_000, 0)?;
    Ok(StopSettings { mode, after })
}

/// What the document sets the keys of the receive path to.
pub(crate) fn rx_in(table: &Table) -> Result<RxSettings, SettingFault>
    ensures { AreSetTo rx_setting (table_view table.now) rx_keys result }
{
    let descriptors = number_in(table, KeyName::RxDescriptors, 8, 32_768, 512)?;
    let clusters = number_in(table, KeyName::RxClusters, 8, 65_536, 2_048)?;
    let burst = number_in(table, KeyName::RxBurst, 1, 65_535, 64)?;
    let copy_break = number_in(table, KeyName::RxCopyBreak, 0, CLUSTER_BYTES, 128)?;
    Ok(RxSettings {
        descriptors,
        clusters,
        burst,
        copy_break,
    })
}
