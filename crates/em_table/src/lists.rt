//! The values at keys that are arrays: of tables, of texts and of numbers.
ghost use Rattle.std.specs.Prelude.{◌≡◌, true, false, IfOk, MatchOption, Some, map, option_map};
ghost use Rattle.std.specs.List.{list_all, filter_map};
ghost use Rattle.toml.specs.Data.{as_array, as_table, as_str, get_member};
ghost use Rattle.toml.specs.View.{view, table_view};
ghost use Rattle.em_base.specs.Text.{texts_of};
ghost use Rattle.em_table.specs.declared.keys.Need.TheVariants.{Required};
ghost use Rattle.em_table.specs.Faults.{unless};
ghost use Rattle.em_table.specs.Reading.{GivesAll, GivesSeen, groups_of, numbers_of};
ghost use Rattle.em_table.specs.Values.{is_below, is_integer, is_table, is_text, list_of, number_in, numbers_at, numbers_fault, tables_at, tables_fault};
ghost use Rattle.em_table.specs.Values as spec;

use crate::faults::Fault;
use crate::keys::value_at;
use em_base::{Fail, Items, SemId};
use std::alloc::{AllocError, Global};
use toml::{Table, Value};

/// The items of a value that is an array.
fn items_of(value: &Value) -> Option<&[Value]>
    ensures { let items = option_map list_of (as_array (view value.now)) in
        option_map (λ values. map view values.now) result ≡ items }
{
    match value.as_array() {
        Some(array) => Some(array.as_slice()),
        None => None,
    }
}

/// The tables that the values are, where each of them is one.
fn tables_among<'a>(
    alloc: Global,
    values: &'a [Value],
) -> Result<Option<Vec<&'a Table>>, AllocError>
    ensures { IfOk result
        (λ found. GivesAll as_table found (λ tables. groups_of tables.items) values.now) }
{
    let mut found = Vec::new(alloc);
    for value in values {
        match value.as_table() {
            Some(table) => found.push(table)?,
            None => return Ok(None),
        }
    }
    Ok(Some(found))
}

/// The texts that the values are, where each of them is one.
fn texts_among<'a>(alloc: Global, values: &'a [Value]) -> Result<Option<Vec<&'a str>>, AllocError>
    ensures { IfOk result
        (λ found. GivesAll as_str found (λ texts. texts_of texts.items) values.now) }
{
    let mut found = Vec::new(alloc);
    for value in values {
        match value.as_str() {
            Some(text) => found.push(text)?,
            None => return Ok(None),
        }
    }
    Ok(Some(found))
}

/// Whether each value is an integer, value by value.
fn each_is_integer(values: &[Value]) -> bool
    ensures { result ≡ list_all (λ value. is_integer (view value)) values.now }
{
    values.iter().all(|value| value.is_integer())
}

/// Whether all values are integers.
fn are_integers(values: &[Value]) -> bool
    ensures { result ≡ list_all is_integer (map view values.now) }
{
    each_is_integer(values)
}

/// The semaphore that a value names, where it is a number below their number.
fn semaphore(value: &Value, semaphores: u8) -> Option<SemId>
    ensures { let item = view value.now in
        MatchOption result (is_below semaphores item ≡ false)
        (λ found. (is_below semaphores item ≡ true) × (number_in item ≡ Some found.0)) }
{
    match value.as_integer() {
        Some(number) => match u8::try_from(number) {
            Ok(number) => if number < semaphores {
                Some(SemId(number))
            } else {
                None
            },
            Err(_) => None,
        },
        None => None,
    }
}

/// The semaphores that the values name, where each of them is a number below their number.
fn semaphores_among(alloc: Global, values: &[Value], semaphores: u8) -> Result<Items<SemId>, Fail>
    ensures { let items = map view values.now in
        let fault = unless (list_all (is_below semaphores) items) Fault.OutOfRange in
        GivesSeen numbers_of result fault (filter_map number_in items) }
{
    let mut found = Items::new(alloc);
    for value in values {
        match semaphore(value, semaphores) {
            Some(semaphore) => found.push(alloc, semaphore)?,
            None => return Err(Fault::OutOfRange.into()),
        }
    }
    Ok(found)
}

/// The semaphores that a value names.
fn semaphores_in(alloc: Global, value: &Value, semaphores: u8) -> Result<Items<SemId>, Fail>
    ensures { let value = Some (view value.now) in
        GivesSeen numbers_of result (numbers_fault semaphores value) (numbers_at value) }
{
    match items_of(value) {
        Some(values) => if are_integers(values) {
            semaphores_among(alloc, values, semaphores)
        } else {
            Err(Fault::WrongKind.into())
        },
        None => Err(Fault::WrongKind.into()),
    }
}

/// The semaphores at a key that may be left out: an array of numbers below their number.
pub fn semaphores_at(
    alloc: Global,
    table: &Table,
    key: &str,
    semaphores: u8,
) -> Result<Items<SemId>, Fail>
    ensures { let value = get_member key.now (table_view table.now) in
        GivesSeen numbers_of result (numbers_fault semaphores value) (numbers_at value) }
{
    match value_at(table, key) {
        Some(value) => semaphores_in(alloc, value, semaphores),
        None => Ok(Items::new(alloc)),
    }
}

/// The tables that a value is, `low` to `high` of them.
pub fn tables_in<'a>(
    alloc: Global,
    value: &'a Value,
    low: usize,
    high: usize,
) -> Result<Vec<&'a Table>, Fail>
    ensures { let value = Some (view value.now) in
        let fault = tables_fault Required low high value in
        GivesSeen (λ found. groups_of found.items) result fault (tables_at value) }
{
    match items_of(value) {
        Some(values) => match tables_among(alloc, values)? {
            Some(tables) => if low <= values.len() && values.len() <= high {
                Ok(tables)
            } else {
                Err(Fault::OutOfRange.into())
            },
            None => Err(Fault::WrongKind.into()),
        },
        None => Err(Fault::WrongKind.into()),
    }
}

/// The texts that a value is.
fn texts_in<'a>(alloc: Global, value: &'a Value) -> Result<Vec<&'a str>, Fail>
    ensures { let value = Some (view value.now) in
        let fault = spec.texts_fault value in
        GivesSeen (λ found. texts_of found.items) result fault (spec.texts_at value) }
{
    match items_of(value) {
        Some(values) => match texts_among(alloc, values)? {
            Some(texts) => Ok(texts),
            None => Err(Fault::WrongKind.into()),
        },
        None => Err(Fault::WrongKind.into()),
    }
}

/// The texts at a key that is required.
pub fn texts_at<'a>(alloc: Global, table: &'a Table, key: &str) -> Result<Vec<&'a str>, Fail>
    ensures { let value = get_member key.now (table_view table.now) in
        let fault = spec.texts_fault value in
        GivesSeen (λ found. texts_of found.items) result fault (spec.texts_at value) }
{
    match value_at(table, key) {
        Some(value) => texts_in(alloc, value),
        None => Err(Fault::Missing.into()),
    }
}
