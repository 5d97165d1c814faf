use crate::keys::KeyName;
use thiserror::Error;

/// Why a settings file is refused: its first fault, in this order.
#[derive(Clone, Copy, Debug, PartialEq, Eq, Error)]
pub enum SettingFault {
    /// The bytes are not UTF-8, or not a TOML document.
    #[error("text")]
    Text,
    /// A name at the top is neither a key nor a table of keys, a table's name has another value than a table, or a
    /// name in a table is no key of it.
    #[error("unknown")]
    Unknown,
    /// The value of this key is of another kind, out of its range, or does not go with the value of another key.
    #[error("{0}")]
    Key(KeyName),
    /// There was no memory to read the document.
    #[error("out of memory")]
    Memory,
}
