ghost use Rattle.std.specs.Prelude.{◌≡◌, ◌≤◌, option_map, IfOk, IfSome};
ghost use Rattle.toml.specs.View.{view, table_view};
ghost use Rattle.ifl_conf.specs.Keys.{row, between, truth, number, flag, word};
ghost use Rattle.ifl_conf.specs.Documents.{set_in, as_setting, IsSetTo};

use crate::choices::Choice;
use crate::document::written;
use crate::keys::KeyName;
use crate::setting_fault::SettingFault;
use toml::{Table, Value};

/// What the document sets a key of numbers to.
#[tactic(auto, unfolding(crate::specs::Documents::set_in))]
pub(crate) fn number_in(
    table: &Table,
    key: KeyName,
    least: u32,
    most: u32,
    standard: u32,
) -> Result<u32, SettingFault>
    requires kind { (row key).kind ≡ between least most }
    requires standard { (row key).standard ≡ number standard }
    requires within { (least ≤ standard) × (standard ≤ most) }
    ensures set { IsSetTo number (set_in (table_view table.now) key) key result }
    ensures within { IfOk result (λ n. (least ≤ n) × (n ≤ most)) }
{
    let value = match written(table, key) {
        Some(value) => value,
        None => return Ok(standard),
    };
    match number_within(value, least, most) {
        Some(n) => Ok(n),
        None => Err(SettingFault::Key(key)),
    }
}

/// The number that the value is, where it is in the range.
fn number_within(value: &Value, least: u32, most: u32) -> Option<u32>
    ensures set { option_map number result ≡ as_setting (between least most) (view value.now) }
    ensures within { IfSome result (λ n. (least ≤ n) × (n ≤ most)) }
{
    match value.as_integer() {
        Some(n) => match u32::try_from(n) {
            Ok(n) if least <= n && n <= most => Some(n),
            _ => None,
        },
        None => None,
    }
}

/// What the document sets a key that is true or false to.
#[tactic(auto, unfolding(crate::specs::Documents::set_in))]
pub(crate) fn flag_in(table: &Table, key: KeyName, standard: bool) -> Result<bool, SettingFault>
    requires kind { (row key).kind ≡ truth }
    requires standard { (row key).standard ≡ flag standard }
    ensures { IsSetTo flag (set_in (table_view table.now) key) key result }
{
    let value = match written(table, key) {
        Some(value) => value,
        None => return Ok(standard),
    };
    match value.as_bool() {
        Some(flag) => Ok(flag),
        None => Err(SettingFault::Key(key)),
    }
}

/// What the document sets a key of words to.
#[tactic(auto, unfolding(crate::specs::Documents::set_in))]
pub(crate) fn choice_in<C: Choice>(table: &Table) -> Result<C, SettingFault>
    ensures { IsSetTo (λ c. word (C.spelled c)) (set_in (table_view table.now) C.key) C.key result }
{
    let fault = Err(SettingFault::Key(C::key()));
    match written(table, C::key()) {
        None => Ok(C::standard()),
        Some(Value::String(text)) => match C::named(text.as_str()) {
            Some(choice) => Ok(choice),
            None => fault,
        },
        Some(_) => fault,
    }
}
