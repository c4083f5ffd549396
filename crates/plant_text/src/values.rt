//! Reading what a key of a table holds: whether it is there, its type, and its range.
ghost use Rattle.std.specs.Prelude.{◌≡◌, pos, ◌≤◌, length, Bool, is_some, map, option_map, option_copied, Option, Some, None, [], if◌then◌else◌, nat_le, unsigned_abs, IfSome, IfOk};
ghost use Rattle.toml.specs.Data.{as_str, as_array};
ghost use Rattle.toml.specs.View.{view, table_view};
ghost use Rattle.plant_text.specs.Tests.{Gives, rows_tests};
ghost use Rattle.plant_text.specs.Fields.{fault, held, field_tests, at_key, count_tests, money_tests, time_tests, is_between, count_of, integer_of, text_of, items_of, numbers_of, amounts_of, place_of, part_of, whole_part, kind_tests, is_within, is_before, natural};
ghost use Rattle.plant_text.specs.Fields as kind;
ghost use Rattle.plant_text.specs.Names.{places_in};
ghost use Rattle.plant_text.specs.Scope.{scope_of};

use crate::fault::{KeyName, Place, PlantStop};
use crate::find::{Key, present};
use crate::names::{is_name, name_of};
use crate::numbers::Numbers;
use crate::rows::{Row, read_rows};
use crate::scope::{Context, Owner};
use fraction::Fraction;
use std::alloc::Global;
use stn_model::{List, Name};
use toml::{Table, Value};

fn within(number: i64, low: u32, high: u32) -> Option<u32>
    ensures { result ≡ (if is_within low high number then Some (natural number) else None) }
{
    match u32::try_from(number) {
        Err(_) => None,
        Ok(number) => {
            if low <= number && number <= high {
                Some(number)
            } else {
                None
            }
        }
    }
}

#[tactic(auto, unfolding(crate::specs::Tests::first_fault))]
fn count_in(
    value: &Value,
    place: Place,
    name: KeyName,
    low: u32,
    high: u32,
) -> Result<u32, PlantStop>
    ensures { Gives result (count_tests place name low high (view value.now))
        (count_of (view value.now)) }
{
    let number = match value.as_integer() {
        Some(number) => number,
        None => return Err(place.stop(6, name)),
    };
    match within(number, low, high) {
        Some(count) => Ok(count),
        None => Err(place.stop(7, name)),
    }
}

/// The whole number at a key, from `low` to `high`, if the key is there.
#[tactic(auto, unfolding(crate::specs::Fields::value_tests, crate::specs::Fields::kind_tests, crate::specs::Tests::first_fault))]
pub fn count_if_there(
    table: &Table,
    place: Place,
    key: Key,
    low: u32,
    high: u32,
) -> Result<Option<u32>, PlantStop>
    ensures { Gives result (field_tests place (table_view table.now)
        (record { key = key; kind = kind.count low high })) (option_map count_of
        (held (table_view table.now) key)) }
{
    match present(table, place, key)? {
        None => Ok(None),
        Some(value) => Ok(Some(count_in(value, place, key.name, low, high)?)),
    }
}

/// The whole number at a key, from `low` to `high`, or the default.
#[tactic(auto, unfolding(crate::specs::Fields::value_tests, crate::specs::Fields::kind_tests, crate::specs::Tests::first_fault))]
pub fn count(
    table: &Table,
    place: Place,
    key: Key,
    low: u32,
    high: u32,
    default: u32,
) -> Result<u32, PlantStop>
    ensures { Gives result (field_tests place (table_view table.now)
        (record { key = key; kind = kind.count low high })) (at_key count_of default
        (table_view table.now) key) }
{
    match present(table, place, key)? {
        None => Ok(default),
        Some(value) => count_in(value, place, key.name, low, high),
    }
}

#[tactic(auto, unfolding(crate::specs::Tests::first_fault))]
fn money_in(value: &Value, place: Place, name: KeyName, most: u32) -> Result<i64, PlantStop>
    ensures { Gives result (money_tests place name most (view value.now))
        (integer_of (view value.now)) }
{
    let number = match value.as_integer() {
        Some(number) => number,
        None => return Err(place.stop(6, name)),
    };
    if number.unsigned_abs() <= u64::from(most) {
        Ok(number)
    } else {
        Err(place.stop(7, name))
    }
}

/// The amount of money at a key, of at most `most` in absolute value, or 0.
#[tactic(auto, unfolding(crate::specs::Fields::value_tests, crate::specs::Fields::kind_tests, crate::specs::Tests::first_fault))]
pub fn money(table: &Table, place: Place, key: Key, most: u32) -> Result<i64, PlantStop>
    ensures { Gives result (field_tests place (table_view table.now)
        (record { key = key; kind = kind.money most })) (at_key integer_of (pos 0)
        (table_view table.now) key) }
{
    match present(table, place, key)? {
        None => Ok(0),
        Some(value) => money_in(value, place, key.name, most),
    }
}

/// The range of a time, and whether it stands alone, without the key that it needs.
#[derive(Clone, Copy)]
pub struct Span {
    pub alone: bool,
    pub low: i32,
    pub high: i32,
}

fn is_between(low: i32, high: i32, number: i64) -> bool
    ensures { result ≡ is_between low high number }
{
    i64::from(low) <= number && number <= i64::from(high)
}

#[tactic(auto, unfolding(crate::specs::Tests::first_fault))]
fn time_in(value: &Value, place: Place, name: KeyName, span: Span) -> Result<i32, PlantStop>
    ensures { Gives result (time_tests place name span.alone span.low span.high (view value.now))
        (integer_of (view value.now)) }
{
    let number = match value.as_integer() {
        Some(number) => number,
        None => return Err(place.stop(6, name)),
    };
    if !is_between(span.low, span.high, number) {
        return Err(place.stop(7, name));
    }
    if span.alone {
        return Err(place.stop(23, name));
    }
    Ok(number as i32)
}

/// The time at a key, within its range, or 0.
#[tactic(auto, unfolding(crate::specs::Fields::value_tests, crate::specs::Fields::kind_tests, crate::specs::Tests::first_fault))]
pub fn time(table: &Table, place: Place, key: Key, span: Span) -> Result<i32, PlantStop>
    ensures { Gives result (field_tests place (table_view table.now)
        (record { key = key; kind = kind.time span.alone span.low span.high }))
        (at_key integer_of (pos 0) (table_view table.now) key) }
{
    match present(table, place, key)? {
        None => Ok(0),
        Some(value) => time_in(value, place, key.name, span),
    }
}

fn is_before(place: Option<u32>, number: usize) -> bool
    ensures { result ≡ is_before place number }
{
    match place {
        None => false,
        Some(place) => (place as usize) < number,
    }
}

#[tactic(auto, unfolding(crate::specs::Fields::kind_tests, crate::specs::Tests::first_fault))]
fn name_in(
    alloc: Global,
    value: &Value,
    place: Place,
    name: KeyName,
    names: &Numbers,
    number: usize,
) -> Result<Name, PlantStop>
    ensures { Gives result (kind_tests place name (kind.declares (places_in names.now) number)
        (view value.now)) (text_of (view value.now)) }
{
    let text = match value.as_str() {
        Some(text) => text,
        None => return Err(place.stop(6, name)),
    };
    if !is_name(text.as_bytes()) {
        return Err(place.stop(8, name));
    }
    if is_before(names.place_of(text), number) {
        return Err(place.stop(9, name));
    }
    Ok(name_of(alloc, text.as_bytes())?)
}

/// The name that an item declares at a key; `number` is the item's number, from 0.
#[tactic(auto, unfolding(crate::specs::Fields::value_tests, crate::specs::Tests::first_fault))]
pub fn name(
    alloc: Global,
    table: &Table,
    place: Place,
    key: Key,
    names: &Numbers,
    number: usize,
) -> Result<Name, PlantStop>
    ensures { Gives result (field_tests place (table_view table.now)
        (record { key = key; kind = kind.declares (places_in names.now) number }))
        (at_key text_of [] (table_view table.now) key) }
{
    match present(table, place, key)? {
        None => Ok(List::new(alloc)),
        Some(value) => name_in(alloc, value, place, key.name, names, number),
    }
}

#[tactic(auto, unfolding(crate::specs::Fields::kind_tests, crate::specs::Tests::first_fault))]
fn reference_in(
    value: &Value,
    place: Place,
    name: KeyName,
    names: &Numbers,
) -> Result<u32, PlantStop>
    ensures { Gives result (kind_tests place name (kind.refers (places_in names.now))
        (view value.now)) (place_of (places_in names.now) (view value.now)) }
{
    let text = match value.as_str() {
        Some(text) => text,
        None => return Err(place.stop(6, name)),
    };
    match names.place_of(text) {
        Some(number) => Ok(number),
        None => Err(place.stop(10, name)),
    }
}

/// The number of the name that a key refers to.
#[tactic(auto, unfolding(crate::specs::Fields::value_tests, crate::specs::Tests::first_fault))]
pub fn reference(table: &Table, place: Place, key: Key, names: &Numbers) -> Result<u32, PlantStop>
    ensures { Gives result (field_tests place (table_view table.now)
        (record { key = key; kind = kind.refers (places_in names.now) }))
        (at_key (place_of (places_in names.now)) 0 (table_view table.now) key) }
{
    match present(table, place, key)? {
        None => Ok(0),
        Some(value) => reference_in(value, place, key.name, names),
    }
}

#[tactic(auto, unfolding(crate::specs::Fields::kind_tests, crate::specs::Tests::first_fault))]
fn place_in(value: &Value, place: Place, name: KeyName, names: &Numbers) -> Result<u32, PlantStop>
    ensures { Gives result (kind_tests place name kind.mentions (view value.now))
        (place_of (places_in names.now) (view value.now)) }
{
    match value.as_str() {
        Some(text) => Ok(names.place_of(text).unwrap_or(0)),
        None => Err(place.stop(6, name)),
    }
}

/// The number of the name at a key, if the key is there; 0 where it is not declared, which is looked at later.
#[tactic(auto, unfolding(crate::specs::Fields::value_tests, crate::specs::Tests::first_fault))]
pub fn place_if_there(
    table: &Table,
    place: Place,
    key: Key,
    names: &Numbers,
) -> Result<Option<u32>, PlantStop>
    ensures { Gives result (field_tests place (table_view table.now)
        (record { key = key; kind = kind.mentions }))
        (option_map (place_of (places_in names.now)) (held (table_view table.now) key)) }
{
    match present(table, place, key)? {
        None => Ok(None),
        Some(value) => Ok(Some(place_in(value, place, key.name, names)?)),
    }
}

#[tactic(auto, unfolding(crate::specs::Fields::kind_tests, crate::specs::Tests::first_fault))]
fn part_in(value: &Value, place: Place, name: KeyName) -> Result<Fraction, PlantStop>
    ensures { Gives result (kind_tests place name kind.part (view value.now))
        (part_of (view value.now)) }
{
    let text = match value.as_str() {
        Some(text) => text,
        None => return Err(place.stop(6, name)),
    };
    match Fraction::parse(text.as_bytes()) {
        Some(part) => Ok(part),
        None => Err(place.stop(11, name)),
    }
}

/// The part of a quantum at a key.
#[tactic(auto, unfolding(crate::specs::Fields::value_tests, crate::specs::Tests::first_fault))]
pub fn part(table: &Table, place: Place, key: Key) -> Result<Fraction, PlantStop>
    ensures { Gives result (field_tests place (table_view table.now)
        (record { key = key; kind = kind.part })) (at_key part_of whole_part (table_view table.now)
        key) }
{
    match present(table, place, key)? {
        None => Ok(Fraction { over: 1, under: 1 }),
        Some(value) => part_in(value, place, key.name),
    }
}

/// The items of a value, if it is an array.
pub fn items_of(value: &Value) -> Option<&[Value]>
    ensures some { is_some result ≡ is_some (as_array (view value.now)) }
    ensures items { IfSome result (λ items. items_of (view value.now) ≡ map view items.now) }
{
    match value.as_array() {
        Some(items) => Some(items.as_slice()),
        None => None,
    }
}

fn read_numbers(
    alloc: Global,
    place: Place,
    name: KeyName,
    most: u32,
    items: &[Value],
) -> Result<List<u32>, PlantStop>
    ensures { Gives result (rows_tests (λ earlier x. count_tests place name 0 most x) count_of []
        (map view items.now)) (map count_of (map view items.now)) }
{
    let mut numbers = List::new(alloc);
    for item in items {
        let number = count_in(item, place, name, 0, most)?;
        numbers.push(number)?;
    }
    Ok(numbers)
}

/// How many numbers a key has to hold, how large each may be, and whether another key forbids it.
#[derive(Clone, Copy)]
pub struct Several {
    pub forbidden: bool,
    pub many: u32,
    pub most: u32,
}

/// So many numbers, each at most so large, where an item does not have another key.
macro_rules! several {
    ($value:expr, unless $other:ident; $many:expr, $most:expr) => {
        $crate::values::Several {
            forbidden: $crate::find::has($value, $crate::find::key!(optional $other)),
            many: $many,
            most: $most,
        }
    };
}

pub(crate) use several;

#[tactic(auto, unfolding(crate::specs::Fields::kind_tests, crate::specs::Tests::first_fault))]
fn numbers_in(
    alloc: Global,
    value: &Value,
    place: Place,
    name: KeyName,
    several: Several,
) -> Result<List<u32>, PlantStop>
    ensures { Gives result
        (kind_tests place name (kind.numbers several.forbidden several.many several.most)
        (view value.now)) (numbers_of (view value.now)) }
{
    let items = match items_of(value) {
        Some(items) => items,
        None => return Err(place.stop(6, name)),
    };
    if several.forbidden {
        return Err(place.stop(21, name));
    }
    if items.len() != several.many as usize {
        return Err(place.stop(17, name));
    }
    read_numbers(alloc, place, name, several.most, items)
}

/// The numbers at a key, if it is there.
#[tactic(auto, unfolding(crate::specs::Fields::value_tests, crate::specs::Tests::first_fault))]
pub fn numbers(
    alloc: Global,
    table: &Table,
    place: Place,
    key: Key,
    several: Several,
) -> Result<Option<List<u32>>, PlantStop>
    ensures { Gives result (field_tests place (table_view table.now)
        (record { key = key; kind = kind.numbers several.forbidden several.many several.most }))
        (option_map numbers_of (held (table_view table.now) key)) }
{
    match present(table, place, key)? {
        None => Ok(None),
        Some(value) => Ok(Some(numbers_in(alloc, value, place, key.name, several)?)),
    }
}

fn read_amounts(
    alloc: Global,
    place: Place,
    name: KeyName,
    most: u32,
    items: &[Value],
) -> Result<List<i64>, PlantStop>
    ensures { Gives result (rows_tests (λ earlier x. money_tests place name most x) integer_of []
        (map view items.now)) (map integer_of (map view items.now)) }
{
    let mut amounts = List::new(alloc);
    for item in items {
        let amount = money_in(item, place, name, most)?;
        amounts.push(amount)?;
    }
    Ok(amounts)
}

#[tactic(auto, unfolding(crate::specs::Fields::kind_tests, crate::specs::Tests::first_fault))]
fn amounts_in(
    alloc: Global,
    value: &Value,
    place: Place,
    name: KeyName,
    several: Several,
) -> Result<List<i64>, PlantStop>
    ensures { Gives result
        (kind_tests place name (kind.amounts several.forbidden several.many several.most)
        (view value.now)) (amounts_of (view value.now)) }
{
    let items = match items_of(value) {
        Some(items) => items,
        None => return Err(place.stop(6, name)),
    };
    if several.forbidden {
        return Err(place.stop(21, name));
    }
    if items.len() != several.many as usize {
        return Err(place.stop(17, name));
    }
    read_amounts(alloc, place, name, several.most, items)
}

/// The amounts of money at a key, each of at most so much in absolute value; none where it is not there.
#[tactic(auto, unfolding(crate::specs::Fields::value_tests, crate::specs::Tests::first_fault))]
pub fn amounts(
    alloc: Global,
    table: &Table,
    place: Place,
    key: Key,
    several: Several,
) -> Result<List<i64>, PlantStop>
    ensures { Gives result (field_tests place (table_view table.now)
        (record { key = key; kind = kind.amounts several.forbidden several.many several.most }))
        (at_key amounts_of [] (table_view table.now) key) }
{
    match present(table, place, key)? {
        None => Ok(List::new(alloc)),
        Some(value) => amounts_in(alloc, value, place, key.name, several),
    }
}

/// The items of an array, at most `most` of them.
#[tactic(auto, unfolding(crate::specs::Fields::kind_tests, crate::specs::Tests::first_fault))]
pub fn rows_in<R: Row>(
    alloc: Global,
    value: &Value,
    place: Place,
    name: KeyName,
    most: usize,
    context: &Context,
    owner: Owner,
) -> Result<List<R>, PlantStop>
    requires few { most ≤ 4096 }
    requires horizon { context.now.periods ≤ 336 }
    ensures gives { Gives result
        (kind_tests place name
        (kind.tables most (rows_tests (R.tests (scope_of context.now) owner)
        (R.made (scope_of context.now) owner) [])) (view value.now))
        (map (R.made (scope_of context.now) owner) (items_of (view value.now))) }
    ensures few { IfOk result (λ rows. length rows ≤ most) }
{
    let items = match items_of(value) {
        Some(items) => items,
        None => return Err(place.stop(6, name)),
    };
    if most < items.len() {
        return Err(place.stop(14, name));
    }
    read_rows(alloc, context, owner, items)
}

/// The items of the array at a key, at most `most` of them.
#[tactic(auto, unfolding(crate::specs::Fields::value_tests, crate::specs::Tests::first_fault))]
pub fn rows<R: Row>(
    alloc: Global,
    table: &Table,
    place: Place,
    key: Key,
    most: usize,
    context: &Context,
    owner: Owner,
) -> Result<List<R>, PlantStop>
    requires few { most ≤ 4096 }
    requires horizon { context.now.periods ≤ 336 }
    ensures gives { Gives result (field_tests place (table_view table.now)
        (record {
          key = key;
          kind = kind.tables most
              (rows_tests (R.tests (scope_of context.now) owner)
              (R.made (scope_of context.now) owner) []);
        }))
        (map (R.made (scope_of context.now) owner) (at_key items_of [] (table_view table.now)
        key)) }
    ensures few { IfOk result (λ rows. length rows ≤ most) }
{
    match present(table, place, key)? {
        None => Ok(List::new(alloc)),
        Some(value) => rows_in(alloc, value, place, key.name, most, context, owner),
    }
}
