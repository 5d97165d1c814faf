ghost use Rattle.std.specs.Prelude.{◌≡◌, option_map, Some};
ghost use Rattle.ifl_conf.specs.Keys.{row, same_place, is_key, is_table_name};

use std::fmt;

/// A key of a settings file, in the order in which faults of keys are told.
#[derive(Clone, Copy, Debug, PartialEq, Eq)]
pub enum KeyName {
    /// `version`
    Version,
    /// `ring.size`
    RingSize,
    /// `ring.budget`
    RingBudget,
    /// `ring.abdicate`
    RingAbdicate,
    /// `adapter.kind`
    AdapterKind,
    /// `adapter.descriptors`
    AdapterDescriptors,
    /// `adapter.max_segs`
    AdapterMaxSegs,
    /// `adapter.doorbell_every`
    AdapterDoorbellEvery,
    /// `adapter.turn_frames`
    AdapterTurnFrames,
    /// `adapter.start`
    AdapterStart,
    /// `adapter.hang_after`
    AdapterHangAfter,
    /// `adapter.link_down_after`
    AdapterLinkDownAfter,
    /// `adapter.link_down_turns`
    AdapterLinkDownTurns,
    /// `frames.max_frame`
    FramesMaxFrame,
    /// `frames.policy`
    FramesPolicy,
    /// `pool.clusters`
    PoolClusters,
    /// `pool.seg_bytes`
    PoolSegBytes,
    /// `stop.mode`
    StopMode,
    /// `stop.after`
    StopAfter,
    /// `rx.descriptors`
    RxDescriptors,
    /// `rx.clusters`
    RxClusters,
    /// `rx.burst`
    RxBurst,
    /// `rx.copy_break`
    RxCopyBreak,
}

/// The keys in their order.
pub(crate) const KEYS: [KeyName; 23] = [
    KeyName::Version,
    KeyName::RingSize,
    KeyName::RingBudget,
    KeyName::RingAbdicate,
    KeyName::AdapterKind,
    KeyName::AdapterDescriptors,
    KeyName::AdapterMaxSegs,
    KeyName::AdapterDoorbellEvery,
    KeyName::AdapterTurnFrames,
    KeyName::AdapterStart,
    KeyName::AdapterHangAfter,
    KeyName::AdapterLinkDownAfter,
    KeyName::AdapterLinkDownTurns,
    KeyName::FramesMaxFrame,
    KeyName::FramesPolicy,
    KeyName::PoolClusters,
    KeyName::PoolSegBytes,
    KeyName::StopMode,
    KeyName::StopAfter,
    KeyName::RxDescriptors,
    KeyName::RxClusters,
    KeyName::RxBurst,
    KeyName::RxCopyBreak,
];

impl KeyName {
    /// The name of the table that the key stands in; nothing for the top.
    pub fn table(self) -> Option<&'static str>
        ensures { option_map (λ t. t.now) result ≡ (row self).place }
    {
        match self {
            KeyName::Version => None,
            KeyName::RingSize | KeyName::RingBudget | KeyName::RingAbdicate => Some("ring"),
            KeyName::AdapterKind
            | KeyName::AdapterDescriptors
            | KeyName::AdapterMaxSegs
            | KeyName::AdapterDoorbellEvery
            | KeyName::AdapterTurnFrames
            | KeyName::AdapterStart
            | KeyName::AdapterHangAfter
            | KeyName::AdapterLinkDownAfter
            | KeyName::AdapterLinkDownTurns => Some("adapter"),
            KeyName::FramesMaxFrame | KeyName::FramesPolicy => Some("frames"),
            KeyName::PoolClusters | KeyName::PoolSegBytes => Some("pool"),
            KeyName::StopMode | KeyName::StopAfter => Some("stop"),
            KeyName::RxDescriptors
            | KeyName::RxClusters
            | KeyName::RxBurst
            | KeyName::RxCopyBreak => Some("rx"),
        }
    }

    /// The key's name in its table.
    pub fn name(self) -> &'static str
        ensures { result.now ≡ (row self).name }
    {
        match self {
            KeyName::Version => "version",
            KeyName::RingSize => "size",
            KeyName::RingBudget => "budget",
            KeyName::RingAbdicate => "abdicate",
            KeyName::AdapterKind => "kind",
            KeyName::AdapterDescriptors => "descriptors",
            KeyName::AdapterMaxSegs => "max_segs",
            KeyName::AdapterDoorbellEvery => "doorbell_every",
            KeyName::AdapterTurnFrames => "turn_frames",
            KeyName::AdapterStart => "start",
            KeyName::AdapterHangAfter => "hang_after",
            KeyName::AdapterLinkDownAfter => "link_down_after",
            KeyName::AdapterLinkDownTurns => "link_down_turns",
            KeyName::FramesMaxFrame => "max_frame",
            KeyName::FramesPolicy => "policy",
            KeyName::PoolClusters => "clusters",
            KeyName::PoolSegBytes => "seg_bytes",
            KeyName::StopMode => "mode",
            KeyName::StopAfter => "after",
            KeyName::RxDescriptors => "descriptors",
            KeyName::RxClusters => "clusters",
            KeyName::RxBurst => "burst",
            KeyName::RxCopyBreak => "copy_break",
        }
    }
}

/// Prints the key as `table.name`, and a key at the top as `name`.
impl fmt::Display for KeyName {
    ghost use Rattle.std.specs.Prelude.{Some};
    ghost use Rattle.ifl_conf.specs.KeyText.{key_text};

    ghost output = { λ key. Some (key_text key) };

    fn fmt<W: fmt::Write>(&self, f: &mut fmt::Formatter<W>) -> fmt::Result {
        if let Some(table) = self.table() {
            f.write_str(table)?;
            f.write_str(".")?;
        }
        f.write_str(self.name())
    }
}

/// Whether some key stands in this table, or at the top, under this name.
#[tactic(auto, unfolding(crate::specs::Keys::is_key))]
pub(crate) fn is_key(table: Option<&str>, name: &str) -> bool
    ensures { result ≡ is_key (option_map (λ t. t.now) table.entry) name.now }
{
    KEYS.iter()
        .any(|key| stands_in(*key, table) && key.name() == name)
}

/// Whether some key stands in this table.
#[tactic(auto, unfolding(crate::specs::Keys::is_table_name))]
pub(crate) fn is_table_name(name: &str) -> bool
    ensures { result ≡ is_table_name name.now }
{
    KEYS.iter().any(|key| stands_in(*key, Some(name)))
}

/// Whether the key stands in this table, or at the top.
fn stands_in(key: KeyName, table: Option<&str>) -> bool
    ensures { result ≡ same_place (row key).place (option_map (λ t. t.now) table.entry) }
{
    match (key.table(), table) {
        (None, None) => true,
        (Some(own), Some(other)) => own == other,
        _ => false,
    }
}
