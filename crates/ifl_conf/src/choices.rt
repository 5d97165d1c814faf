ghost use Rattle.std.specs.Prelude.{◌≡◌, ℕ, List, ◌∷◌, [], codes, option_map};
ghost use Rattle.std.proofs.Common.{refl};
ghost use Rattle.toml.specs.Data.{string};
ghost use Rattle.ifl_conf.specs.Keys.{row, word, one_of};
ghost use Rattle.ifl_conf.specs.Documents.{as_setting};
ghost use Rattle.ifl_conf.specs.declared.keys.KeyName.{KeyName as Keyed};
ghost use Rattle.ifl_conf.specs.declared.keys.KeyName.TheVariants as keyed;
ghost use Rattle.ifl_conf.specs.Choices.{kind_text, start_text, policy_text, mode_text};

use crate::keys::KeyName;

/// A choice that a settings file writes as one of the words of a key.
pub(crate) trait Choice: Copy {
    /// The key.
    ghost key: { Keyed };

    /// The words of the key.
    ghost words: { List (List ℕ) };

    ghost kind: { (row key).kind ≡ one_of words };

    /// How a choice is written.
    ghost spelled: { Self → List ℕ };

    /// The key that takes it.
    fn key() -> KeyName
        ensures { result ≡ key };

    /// The choice where the key is left out.
    fn standard() -> Self
        ensures { word (spelled result) ≡ (row key).standard };

    /// The choice that is written so.
    fn named(text: &str) -> Option<Self>
        ensures { option_map (λ c. word (spelled c)) result ≡ as_setting (row key).kind (string text.now) };
}

/// How the adapter tells what it has done.
#[derive(Clone, Copy, Debug, PartialEq, Eq)]
pub enum AdapterKind {
    /// By a status word in each descriptor: `"legacy"`.
    Legacy,
    /// By a head word in memory: `"writeback"`.
    Writeback,
    /// By completion entries with a generation bit: `"generation"`.
    Generation,
}

/// When the adapter begins to work.
#[derive(Clone, Copy, Debug, PartialEq, Eq)]
pub enum Start {
    /// Beside the senders: `"at_once"`.
    AtOnce,
    /// When all senders have ended: `"after_senders"`.
    AfterSenders,
}

/// What a sender does where there is no room for a frame.
#[derive(Clone, Copy, Debug, PartialEq, Eq)]
pub enum Policy {
    /// It tries again: `"retry"`.
    Retry,
    /// It turns the frame away: `"drop"`.
    Drop,
}

/// What becomes of the frames that are still queued when a run ends.
#[derive(Clone, Copy, Debug, PartialEq, Eq)]
pub enum StopMode {
    /// They are sent: `"drain"`.
    Drain,
    /// They are settled without being sent: `"flush"`.
    Flush,
}

impl Choice for AdapterKind {
    ghost key = { keyed.AdapterKind };

    ghost words = { codes "legacy" ∷ codes "writeback" ∷ codes "generation" ∷ [] };

    ghost kind = { refl };

    ghost spelled = { kind_text };

    fn key() -> KeyName {
        KeyName::AdapterKind
    }

    fn standard() -> AdapterKind {
        AdapterKind::Writeback
    }

    fn named(text: &str) -> Option<AdapterKind> {
        match text {
            "legacy" => Some(AdapterKind::Legacy),
            "writeback" => Some(AdapterKind::Writeback),
            "generation" => Some(AdapterKind::Generation),
            _ => None,
        }
    }
}

impl Choice for Start {
    ghost key = { keyed.AdapterStart };

    ghost words = { codes "at_once" ∷ codes "after_senders" ∷ [] };

    ghost kind = { refl };

    ghost spelled = { start_text };

    fn key() -> KeyName {
        KeyName::AdapterStart
    }

    fn standard() -> Start {
        Start::AtOnce
    }

    fn named(text: &str) -> Option<Start> {
        match text {
            "at_once" => Some(Start::AtOnce),
            "after_senders" => Some(Start::AfterSenders),
            _ => None,
        }
    }
}

impl Choice for Policy {
    ghost key = { keyed.FramesPolicy };

    ghost words = { codes "retry" ∷ codes "drop" ∷ [] };

    ghost kind = { refl };

    ghost spelled = { policy_text };

    fn key() -> KeyName {
        KeyName::FramesPolicy
    }

    fn standard() -> Policy {
        Policy::Retry
    }

    fn named(text: &str) -> Option<Policy> {
        match text {
            "retry" => Some(Policy::Retry),
            "drop" => Some(Policy::Drop),
            _ => None,
        }
    }
}

impl Choice for StopMode {
    ghost key = { keyed.StopMode };

    ghost words = { codes "drain" ∷ codes "flush" ∷ [] };

    ghost kind = { refl };

    ghost spelled = { mode_text };

    fn key() -> KeyName {
        KeyName::StopMode
    }

    fn standard() -> StopMode {
        StopMode::Drain
    }

    fn named(text: &str) -> Option<StopMode> {
        match text {
            "drain" => Some(StopMode::Drain),
            "flush" => Some(StopMode::Flush),
            _ => None,
        }
    }
}
