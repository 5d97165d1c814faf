//! The words of the command line, and the settings file.
//!
//! It stands on `ifl_base` for limits, on `toml` for documents and on `thiserror` for messages. Its one contract: the words are read by one
//! grammar and the settings by one table of keys, and each refusal is the first fault in the order that they give.
//!
//! `specs/` reads in this order. Words: `Options` (the table of commands and options), `Front`, `FileWords`,
//! `Grammar`, `Clashes`, `Reading` (what a list of words is), `Commands` (what is answered to it), and `Spelling`
//! (how words are written, for the laws [`front_is_spelled`] and [`files_are_spelled`]). Settings: `Keys` (the table of keys), `KeyText`,
//! `Choices`, `Documents` (what a file sets, and its first fault), `Kept` (what [`Settings`] say of each key).
//! `Served` says what of both the program does not do yet.
#![tactic(auto)]

mod choices;
mod clashes;
mod command;
mod command_line;
mod document;
mod files;
mod front;
mod grammar;
mod keys;
mod laws;
mod making;
mod numbers;
mod readers;
mod served;
mod setting_fault;
mod settings;
mod settings_file;
mod standard;
mod tables;
mod values;
mod word_fault;
mod words;

pub use choices::{AdapterKind, Policy, Start, StopMode};
pub use command::{CheckWords, Command, GenWords, SendWords};
pub use command_line::read_words;
pub use keys::KeyName;
pub use laws::{files_are_spelled, front_is_spelled, settings_are_valid};
pub use setting_fault::SettingFault;
pub use settings::{
    AdapterSettings, FramesSettings, PoolSettings, RingSettings, RxSettings, Settings, StopSettings,
};
pub use settings_file::read_settings;
pub use word_fault::WordFault;

#[cfg(test)]
mod tests;
