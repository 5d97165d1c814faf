ghost use Rattle.std.specs.Prelude.{◌≡◌, option_map, MatchResult, Some};
ghost use Rattle.toml.specs.View.{view, table_view};
ghost use Rattle.ifl_conf.specs.Keys.{row};
ghost use Rattle.ifl_conf.specs.Documents.{names_known, names_known_in, is_known_table, written_at, document_of, IsNoDocument};

use crate::keys::{self, KeyName};
use crate::setting_fault::SettingFault;
use std::alloc::Global;
use toml::{Table, Value};

/// The document that the bytes are.
#[tactic(auto, using(crate::proofs::Utf8Texts::document_from_parts, crate::proofs::Utf8Texts::no_document_from_parts))]
pub(crate) fn document_in(alloc: Global, bytes: &[u8]) -> Result<Table, SettingFault>
    ensures { MatchResult result (λ t. document_of bytes.now ≡ Some (table_view t)) (IsNoDocument bytes.now) }
{
    match toml::table_from_slice(alloc, bytes) {
        Ok(table) => Ok(table),
        Err(error) if error.is_memory() => Err(SettingFault::Memory),
        Err(_) => Err(SettingFault::Text),
    }
}

/// Whether each name is one that a key has.
pub(crate) fn names_known(table: &Table) -> bool
    ensures { result ≡ names_known (table_view table.now) }
{
    'members: for (name, value) in table.iter() {
        if !(keys::is_key(None, name.as_str()) || is_known_table(name.as_str(), value)) {
            return false;
        }
    }
    true
}

/// Whether the value is a table of keys with no name that no key has.
fn is_known_table(name: &str, value: &Value) -> bool
    ensures { result ≡ is_known_table name.now (view value.now) }
{
    match value {
        Value::Table(inner) => keys::is_table_name(name) && names_known_in(name, inner),
        _ => false,
    }
}

/// Whether each name in this table is one that a key has there.
fn names_known_in(place: &str, table: &Table) -> bool
    ensures { result ≡ names_known_in place.now (table_view table.now) }
{
    'members: for (name, _value) in table.iter() {
        if !keys::is_key(Some(place), name.as_str()) {
            return false;
        }
    }
    true
}

/// The value that a key has in the document; nothing where it is left out.
pub(crate) fn written<'a>(table: &'a Table, key: KeyName) -> Option<&'a Value>
    ensures { option_map (λ v. view v.now) result ≡ written_at (row key).place (row key).name (table_view table.now) }
{
    match key.table() {
        None => table.get(key.name()),
        Some(place) => match table.get(place) {
            Some(inner) => inner.get(key.name()),
            None => None,
        },
    }
}
