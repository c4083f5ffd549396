//! A document as a whole: its sizes, its names, and its arrays.
ghost use Rattle.std.specs.Prelude.{◌≡◌, ◌≤◌, ◌<◌, ◌==◌, [], ◌++◌, length, map, option_map, take, if◌then◌else◌, IfOk, OnOk, IfErr, None};
ghost use Rattle.toml.specs.View.{table_view};
ghost use Rattle.plant_text.specs.Tests.{Gives, first_fault, rows_tests, Stops};
ghost use Rattle.plant_text.specs.Fields.{field_tests, fields_tests, at_key, count_of, items_of, items_at, natural, needed, optional};
ghost use Rattle.plant_text.specs.Fields as kind;
ghost use Rattle.plant_text.specs.Names.{places_in};
ghost use Rattle.plant_text.specs.Scope.{no_owner, scope_of};
ghost use Rattle.plant_text.specs.Document.{top_place, version_in, version_of, is_second, is_third, names_at, scope_in, size_fields, has_third, calendar_fields, calendar_in, named_fields, referring_fields, lasts_tests, with_named, with_referring, plant_with, plant_in, size_tests, unknown_tests, document_tests};

use crate::fault::{KeyName, Place, PlantStop, TableName};
use crate::find::{Key, find, key, unknown};
use crate::moments::moment_if_there;
use crate::numbers::Numbers;
use crate::rows::Row;
use crate::scope::{Context, Owner};
use crate::sizes::{too_many_gap_pairs, too_many_slots};
use crate::tables::unit::check_lasts;
use crate::values::{count, items_of, rows};
use std::alloc::{AllocError, Global};
use stn_model::limits::{
    MAX_EVENTS, MAX_GAPS, MAX_MINUTES, MAX_OUTAGES, MAX_PERIODS, MAX_RUNS, MAX_STATES, MAX_TASKS,
    MAX_UNITS, MAX_UTILITIES, SMALL_EVENTS, SMALL_RUNS, SMALL_STATES, SMALL_TASKS, SMALL_UNITS,
    SMALL_UTILITIES,
};
use stn_model::{Calendar, List, Moment, Plant};
use toml::{Table, Value};

/// The place of the file as a whole.
pub const TOP: Place = Place {
    table: TableName::Top,
    item: 0,
    inner: 0,
};

// The tables at the top stand within no other.
const NO_OWNER: Owner = Owner {
    table: TableName::Top,
    item: 0,
    duration: 0,
};

fn natural(number: i64) -> u64
    ensures { result ≡ natural number }
{
    u64::try_from(number).unwrap_or(0)
}

/// The version that a document names; 0 where that is no number, or negative.
fn version_in(document: &Table) -> u64
    ensures { result ≡ version_in (table_view document.now) }
{
    let version = match find(document, key!(needed Version)) {
        Some(version) => version,
        None => return 0,
    };
    match version.as_integer() {
        Some(number) => natural(number),
        None => 0,
    }
}

/// Whether a document is of version 3.
pub fn is_third(document: &Table) -> bool
    ensures { result ≡ is_third (table_view document.now) }
{
    version_in(document) == 3
}

/// Whether a document is of version 2 or 3.
fn is_second(document: &Table) -> bool
    ensures { result ≡ is_second (table_view document.now) }
{
    let version = version_in(document);
    version == 2 || version == 3
}

/// How many of something there may be, by whether the file is of version 3.
fn most(third: bool, few: usize, many: usize) -> usize
    requires { few ≤ many }
    ensures is { result ≡ (if third then many else few) }
    ensures bound { result ≤ many }
{
    if third { many } else { few }
}

fn first(items: &[Value], most: usize) -> &[Value]
    ensures { result.now ≡ take most items.now }
{
    if most < items.len() {
        &items[..most]
    } else {
        items
    }
}

/// Reads arrays into the lists of a plant, by the rows of the field table.
macro_rules! read_arrays {
    ($alloc:expr, $document:expr, $context:expr, $plant:expr; $($list:ident: ($($key:tt)+) $few:expr, $many:expr;)+) => {
        $(array($alloc, $document, key!($($key)+), $few, $many, $context, &mut $plant.$list)?;)+
    };
}

/// Numbers the names of an array, of as many items as it may have.
fn names(alloc: Global, document: &Table, name: KeyName, most: usize) -> Result<Numbers, AllocError>
    requires { most ≤ 4096 }
    ensures { IfOk result (λ n. places_in n ≡ names_at (table_view document.now) name most) }
{
    let key = Key {
        name,
        known: true,
        required: false,
    };
    let value = match find(document, key) {
        Some(value) => value,
        None => return Numbers::of(alloc, &[]),
    };
    match items_of(value) {
        Some(items) => Numbers::of(alloc, first(items, most)),
        None => Numbers::of(alloc, &[]),
    }
}

/// What the tables of a document are read against.
#[tactic(auto, unfolding(crate::specs::Document::scope_in))]
fn context_of(alloc: Global, document: &Table, periods: u32) -> Result<Context, AllocError>
    requires horizon { periods ≡ at_key count_of 0 (table_view document.now)
        (needed KeyName.Periods) }
    ensures { IfOk result (λ c. scope_of c ≡ scope_in (table_view document.now)) }
{
    let second = is_second(document);
    let third = is_third(document);
    let most_states = most(third, SMALL_STATES, MAX_STATES);
    let most_utilities = most(third, SMALL_UTILITIES, MAX_UTILITIES);
    let most_units = most(third, SMALL_UNITS, MAX_UNITS);
    let most_tasks = most(third, SMALL_TASKS, MAX_TASKS);
    let states = names(alloc, document, KeyName::State, most_states)?;
    let utilities = names(alloc, document, KeyName::Utility, most_utilities)?;
    let units = names(alloc, document, KeyName::StnUnit, most_units)?;
    let tasks = names(alloc, document, KeyName::Task, most_tasks)?;
    Ok(Context {
        second,
        third,
        periods,
        states,
        utilities,
        units,
        tasks,
    })
}

// Whether a document has a key of version 3.
fn has_third(document: &Table, third: bool, name: KeyName) -> bool
    ensures { result ≡ has_third third (table_view document.now) name }
{
    let key = Key {
        name,
        known: third,
        required: false,
    };
    find(document, key).is_some()
}

#[tactic(auto, unfolding(crate::specs::Document::unknown_tests, crate::specs::Document::scope_in, crate::specs::Tests::first_fault))]
fn check_keys(document: &Table, second: bool, third: bool) -> Result<(), PlantStop>
    requires second { second ≡ is_second (table_view document.now) }
    requires third { third ≡ is_third (table_view document.now) }
    ensures ok { OnOk result (first_fault (unknown_tests (table_view document.now)) ≡ None) }
    ensures err { IfErr result
        (λ e. Stops e (first_fault (unknown_tests (table_view document.now)))) }
{
    let begins = has_third(document, third, KeyName::Start);
    let measured = has_third(document, third, KeyName::Minutes);
    let keys = [
        key!(needed Version),
        key!(needed Periods),
        key!(since third, Start beside measured),
        key!(since third, Minutes beside begins),
        key!(optional State),
        key!(optional Utility),
        key!(optional StnUnit),
        key!(optional Task),
        key!(optional Run),
        key!(optional Gap),
        key!(optional Receipt),
        key!(optional Delivery),
        key!(since second, Outage),
    ];
    if unknown(document, &keys) {
        return Err(TOP.stop(3, KeyName::Whole));
    }
    Ok(())
}

fn longest_horizon(second: bool) -> u32
    ensures { result ≡ (if second then 336 else 96) }
{
    if second { MAX_PERIODS } else { 96 }
}

fn version_number(second: bool, third: bool) -> u32
    ensures { result ≡ version_of second third }
{
    if third {
        3
    } else if second {
        2
    } else {
        1
    }
}

/// The horizon of a document, after its version.
#[tactic(auto, using(crate::proofs::Faults::faults_append))]
fn horizon(document: &Table, second: bool, third: bool) -> Result<u32, PlantStop>
    ensures { Gives result
        (fields_tests top_place (table_view document.now) (size_fields second third))
        (at_key count_of 0 (table_view document.now) (needed KeyName.Periods)) }
{
    let place = TOP;
    let version = version_number(second, third);
    let most = longest_horizon(second);
    count(document, place, key!(needed Version), version, version, 0)?;
    let periods = count(document, place, key!(needed Periods), 1, most, 0)?;
    Ok(periods)
}

// The calendar that begins at a moment, where one is told.
fn calendar_from(start: Option<Moment>, minutes: u32) -> Option<Calendar>
    ensures { result ≡ option_map (λ moment. record { start = moment; minutes = minutes }) start }
{
    match start {
        Some(start) => Some(Calendar { start, minutes }),
        None => None,
    }
}

/// The calendar of a document, if it has one.
#[tactic(auto, using(crate::proofs::Faults::faults_append))]
fn calendar(document: &Table, third: bool) -> Result<Option<Calendar>, PlantStop>
    ensures { Gives result
        (fields_tests top_place (table_view document.now) (calendar_fields third
        (table_view document.now)))
        (calendar_in third (table_view document.now)) }
{
    let place = TOP;
    let begins = has_third(document, third, KeyName::Start);
    let measured = has_third(document, third, KeyName::Minutes);
    let start = moment_if_there(document, place, key!(since third, Start beside measured))?;
    let minutes = count(
        document,
        place,
        key!(since third, Minutes beside begins),
        1,
        MAX_MINUTES,
        0,
    )?;
    Ok(calendar_from(start, minutes))
}

/// A plant of so many periods that has nothing.
fn bare_plant(alloc: Global, large: bool, periods: u32, calendar: Option<Calendar>) -> Plant
    ensures large { result.large ≡ large }
    ensures periods { result.periods ≡ periods }
    ensures calendar { result.calendar ≡ calendar }
{
    Plant {
        large,
        periods,
        calendar,
        states: List::new(alloc),
        utilities: List::new(alloc),
        units: List::new(alloc),
        tasks: List::new(alloc),
        runs: List::new(alloc),
        gaps: List::new(alloc),
        receipts: List::new(alloc),
        deliveries: List::new(alloc),
        outages: List::new(alloc),
    }
}

/// Reads the array at a key of the document, in the place of what is there; it has at most `many` items
/// in a file of version 3, and else `few`.
fn array<R: Row>(
    alloc: Global,
    document: &Table,
    key: Key,
    few: usize,
    many: usize,
    context: &Context,
    into: &mut List<R>,
) -> Result<(), PlantStop>
    requires fewer { few ≤ many }
    requires few { many ≤ 4096 }
    requires horizon { context.now.periods ≤ 336 }
    ensures passes { OnOk result
        (first_fault (field_tests top_place (table_view document.now)
        (record {
          key = key;
          kind = kind.tables (if context.now.third then many else few)
              (rows_tests (R.tests (scope_of context.now) no_owner)
              (R.made (scope_of context.now) no_owner) []);
        }))
        ≡ None) }
    ensures is { OnOk result (into.new ≡ map (R.made (scope_of context.now) no_owner)
        (at_key items_of [] (table_view document.now) key)) }
    ensures few { OnOk result (length into.new ≤ many) }
    ensures err { IfErr result
        (λ e. Stops e (first_fault (field_tests top_place (table_view document.now)
        (record {
          key = key;
          kind = kind.tables (if context.now.third then many else few)
              (rows_tests (R.tests (scope_of context.now) no_owner)
              (R.made (scope_of context.now) no_owner) []);
        })))) }
{
    let most = most(context.third, few, many);
    *into = rows(alloc, document, TOP, key, most, context, NO_OWNER)?;
    Ok(())
}

/// Reads the arrays of what has a name into a plant, in their order.
fn named(
    alloc: Global,
    document: &Table,
    context: &Context,
    plant: &mut Plant,
) -> Result<(), PlantStop>
    requires { context.now.periods ≤ 336 }
    ensures passes { OnOk result
        (first_fault (fields_tests top_place (table_view document.now)
        (named_fields (scope_of context.now))) ≡ None) }
    ensures is { OnOk result (plant.new ≡ with_named (scope_of context.now)
        (table_view document.now) plant.old) }
    ensures few { OnOk result (length plant.new.units ≤ 96) }
    ensures err { IfErr result
        (λ e. Stops e (first_fault (fields_tests top_place (table_view document.now)
        (named_fields (scope_of context.now))))) }
{
    read_arrays! { alloc, document, context, plant;
        states: (optional State) SMALL_STATES, MAX_STATES;
        utilities: (optional Utility) SMALL_UTILITIES, MAX_UTILITIES;
        units: (optional StnUnit) SMALL_UNITS, MAX_UNITS;
        tasks: (optional Task) SMALL_TASKS, MAX_TASKS;
    }
    Ok(())
}

/// Reads the arrays of what refers to names into a plant, in their order.
fn referring(
    alloc: Global,
    document: &Table,
    context: &Context,
    plant: &mut Plant,
) -> Result<(), PlantStop>
    requires { context.now.periods ≤ 336 }
    ensures passes { OnOk result
        (first_fault (fields_tests top_place (table_view document.now)
        (referring_fields (scope_of context.now))) ≡ None) }
    ensures is { OnOk result (plant.new ≡ with_referring (scope_of context.now)
        (table_view document.now) plant.old) }
    ensures few { OnOk result (length plant.new.runs ≤ 256) }
    ensures err { IfErr result
        (λ e. Stops e (first_fault (fields_tests top_place (table_view document.now)
        (referring_fields (scope_of context.now))))) }
{
    read_arrays! { alloc, document, context, plant;
        runs: (optional Run) SMALL_RUNS, MAX_RUNS;
        gaps: (optional Gap) MAX_GAPS, MAX_GAPS;
        receipts: (optional Receipt) SMALL_EVENTS, MAX_EVENTS;
        deliveries: (optional Delivery) SMALL_EVENTS, MAX_EVENTS;
        outages: (since context.second, Outage) SMALL_EVENTS, MAX_OUTAGES;
    }
    Ok(())
}

/// Looks whether the task is declared of each batch that held a unit of the document last.
fn check_units(document: &Table, context: &Context) -> Result<(), PlantStop>
    requires { length (items_at (table_view document.now) (optional KeyName.StnUnit)) ≤ 4096 }
    ensures ok { OnOk result
        (first_fault (lasts_tests (scope_of context.now) (table_view document.now)) ≡ None) }
    ensures err { IfErr result
        (λ e. Stops e (first_fault (lasts_tests (scope_of context.now)
        (table_view document.now)))) }
{
    let value = match find(document, key!(optional StnUnit)) {
        Some(value) => value,
        None => return Ok(()),
    };
    match items_of(value) {
        Some(items) => check_lasts(context, items),
        None => Ok(()),
    }
}

#[tactic(auto, unfolding(crate::specs::Document::size_tests, crate::specs::Tests::first_fault))]
fn check_sizes(plant: &Plant) -> Result<(), PlantStop>
    requires runs { length plant.now.runs ≤ 256 }
    requires horizon { plant.now.periods ≤ 336 }
    ensures ok { OnOk result (first_fault (size_tests plant.now) ≡ None) }
    ensures err { IfErr result (λ e. Stops e (first_fault (size_tests plant.now))) }
{
    let runs = Place {
        table: TableName::Run,
        item: 0,
        inner: 0,
    };
    if too_many_slots(plant) {
        return Err(runs.stop(18, KeyName::Whole));
    }
    let gaps = Place {
        table: TableName::Gap,
        item: 0,
        inner: 0,
    };
    if too_many_gap_pairs(plant) {
        return Err(gaps.stop(19, KeyName::Whole));
    }
    Ok(())
}

/// The plant of a document, read against its context.
#[tactic(auto, using(crate::proofs::Faults::faults_append))]
fn plant_against(
    alloc: Global,
    document: &Table,
    context: &Context,
    calendar: Option<Calendar>,
) -> Result<Plant, PlantStop>
    requires horizon { context.now.periods ≤ 336 }
    requires calendar { calendar ≡ calendar_in context.now.third (table_view document.now) }
    ensures { Gives result (fields_tests top_place (table_view document.now)
        (named_fields (scope_of context.now))
        ++ (lasts_tests (scope_of context.now) (table_view document.now)
        ++ (fields_tests top_place (table_view document.now)
        (referring_fields (scope_of context.now)) ++ size_tests (plant_with (scope_of context.now)
        (table_view document.now)))))
        (plant_with (scope_of context.now) (table_view document.now)) }
{
    let mut plant = bare_plant(alloc, context.third, context.periods, calendar);
    named(alloc, document, context, &mut plant)?;
    check_units(document, context)?;
    referring(alloc, document, context, &mut plant)?;
    check_sizes(&plant)?;
    Ok(plant)
}

/// The plant of a document, or its first fault.
#[tactic(auto, using(crate::proofs::Faults::faults_append), unfolding(crate::specs::Document::document_tests, crate::specs::Document::plant_in))]
pub fn read_document(alloc: Global, document: &Table) -> Result<Plant, PlantStop>
    ensures { Gives result (document_tests (table_view document.now))
        (plant_in (table_view document.now)) }
{
    let second = is_second(document);
    let third = is_third(document);
    check_keys(document, second, third)?;
    let periods = horizon(document, second, third)?;
    let calendar = calendar(document, third)?;
    let context = context_of(alloc, document, periods)?;
    plant_against(alloc, document, &context, calendar)
}
