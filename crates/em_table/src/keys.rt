//! The values at the keys of a group: numbers and texts within their ranges.
ghost use Rattle.std.specs.Prelude.{◌≡◌, ◌≤◌, ◌<◌, true, IfOk, IfSome, Some, option_map};
ghost use Rattle.std.specs.BTreeMap.{keys};
ghost use Rattle.std.specs.List.{list_all};
ghost use Rattle.std.specs.Option.{unwrap_or};
ghost use Rattle.toml.specs.Data.{get_member};
ghost use Rattle.toml.specs.View.{table_view, view};
ghost use Rattle.em_base.specs.Text.{texts_of};
ghost use Rattle.em_table.specs.Reading.{Gives, GivesText, is_allowed};
ghost use Rattle.em_table.specs.Values as spec;
ghost use Rattle.em_table.specs.Values.{are_among, number_at, number_fault, number_in, text_at, text_fault};

use crate::faults::Fault;
use crate::repeats::is_among;
use toml::{Table, Value};

/// The longest time that a table may name, in cycles.
pub const LONGEST: u32 = 20_000_000;

/// Whether a key must, may or must not stand in a group.
#[derive(Clone, Copy, Debug, PartialEq, Eq)]
pub enum Need {
    /// The key must be there.
    Required,
    /// The key may be left out.
    Optional,
    /// The group doesn't have the key, and what stands at it isn't looked at.
    Foreign,
}

/// The value at a key.
pub fn value_at<'a>(table: &'a Table, key: &str) -> Option<&'a Value>
    ensures { option_map (λ v. view v.now) result ≡ get_member key.now (table_view table.now) }
{
    table.get(key)
}

/// Whether a number is from `low` to `high` and a multiple of `step`.
fn is_within(low: u32, high: u32, step: u32, number: u32) -> bool
    requires { 0 < step }
    ensures { result ≡ spec.is_within low high step number }
{
    low <= number && number <= high && number % step == 0
}

/// The number that a value is, where it is one from `low` to `high` and a multiple of `step`.
fn number_within(value: &Value, low: u32, high: u32, step: u32) -> Result<u32, Fault>
    requires { 0 < step }
    ensures given { let found = view value.now in
        let fault = number_fault Need.Required low high step (Some found) in
        Gives result fault (unwrap_or (number_in found) 0) }
    ensures found { IfOk result (λ n. number_in (view value.now) ≡ Some n) }
    ensures within { IfOk result (λ n. (low ≤ n) × (n ≤ high)) }
{
    match value.as_integer() {
        None => Err(Fault::WrongKind),
        Some(number) => match u32::try_from(number) {
            Ok(number) => if is_within(low, high, step, number) {
                Ok(number)
            } else {
                Err(Fault::OutOfRange)
            },
            Err(_) => Err(Fault::OutOfRange),
        },
    }
}

/// The number at a key, where there is one: from `low` to `high`, and a multiple of `step`.
pub fn number(
    table: &Table,
    key: &str,
    need: Need,
    low: u32,
    high: u32,
    step: u32,
) -> Result<Option<u32>, Fault>
    requires { 0 < step }
    ensures given { let value = get_member key.now (table_view table.now) in
        Gives result (number_fault need low high step value) (number_at need value) }
    ensures within { IfOk result (λ found. IfSome found (λ n. (low ≤ n) × (n ≤ high))) }
{
    match need {
        Need::Foreign => Ok(None),
        Need::Required => match value_at(table, key) {
            None => Err(Fault::Missing),
            Some(value) => Ok(Some(number_within(value, low, high, step)?)),
        },
        Need::Optional => match value_at(table, key) {
            None => Ok(None),
            Some(value) => Ok(Some(number_within(value, low, high, step)?)),
        },
    }
}

/// The text at a key that is required.
pub fn text<'a>(table: &'a Table, key: &str) -> Result<&'a str, Fault>
    ensures { let value = get_member key.now (table_view table.now) in
        GivesText result (text_fault (λ text. true) value) (text_at value) }
{
    match value_at(table, key) {
        None => Err(Fault::Missing),
        Some(value) => value.as_str().ok_or(Fault::WrongKind),
    }
}

/// Whether each key of a group is one of these, key by key.
fn each_is_among(table: &Table, allowed: &[&str]) -> bool
    ensures { result ≡ list_all (is_allowed allowed.now) (keys table.now) }
{
    table.keys().all(|key| is_among(&key.as_str(), allowed))
}

/// Whether each key of a group is one of these.
pub fn has_only(table: &Table, allowed: &[&str]) -> bool
    ensures { result ≡ are_among (texts_of allowed.now) (table_view table.now) }
{
    each_is_among(table, allowed)
}
