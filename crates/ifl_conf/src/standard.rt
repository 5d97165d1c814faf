ghost use Rattle.std.specs.Prelude.{◌≡◌};
ghost use Rattle.ifl_conf.specs.Keys.{row};
ghost use Rattle.ifl_conf.specs.Kept.{setting};
ghost use Rattle.ifl_conf.specs.declared.keys.KeyName.{KeyName as Keyed};

use crate::choices::{AdapterKind, Policy, Start, StopMode};
use crate::settings::{
    AdapterSettings, FramesSettings, PoolSettings, RingSettings, RxSettings, Settings, StopSettings,
};

impl Settings {
    /// The settings of a file that sets nothing.
    pub fn standard() -> Settings
        ensures { (k : Keyed) → setting result k ≡ (row k).standard }
    {
        Settings {
            version: 1,
            ring: RingSettings {
                size: 2_048,
                budget: 32,
                abdicate: false,
            },
            adapter: AdapterSettings {
                kind: AdapterKind::Writeback,
                descriptors: 1_024,
                max_segs: 32,
                doorbell_every: 4,
                turn_frames: 64,
                start: Start::AtOnce,
                hang_after: 0,
                link_down_after: 0,
                link_down_turns: 16,
            },
            frames: FramesSettings {
                max_frame: 65_536,
                policy: Policy::Retry,
            },
            pool: PoolSettings {
                clusters: 4_096,
                seg_bytes: 2_048,
            },
            stop: StopSettings {
                mode: StopMode::Drain,
                after: 0,
            },
            rx: RxSettings {
                descriptors: 512,
                clusters: 2_048,
                burst: 64,
                copy_break: 128,
            },
        }
    }
}
