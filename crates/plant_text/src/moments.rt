//! Dates with a time of day, as a plant file tells them.
ghost use Rattle.std.specs.Prelude.{◌≡◌, option_map};
ghost use Rattle.toml.specs.View.{view, table_view};
ghost use Rattle.stn_model.specs.Labels.{is_leap_year, days_in_month};
ghost use Rattle.plant_text.specs.Tests.{Gives};
ghost use Rattle.plant_text.specs.Fields.{field_tests, held, kind_tests};
ghost use Rattle.plant_text.specs.Fields as kind;
ghost use Rattle.plant_text.specs.Moments.{is_moment, moment_of_day, whole_moment, local_moment, moment_in, moment_of};

use crate::fault::{KeyName, Place, PlantStop};
use crate::find::{Key, present};
use stn_model::Moment;
use toml::value::{Date, Datetime, Time};
use toml::{Table, Value};

// A leap year of the Gregorian calendar.
fn is_leap_year(year: u16) -> bool
    ensures { result ≡ is_leap_year year }
{
    year % 4 == 0 && (year % 100 != 0 || year % 400 == 0)
}

// How many days a month has.
#[tactic(auto, unfolding(stn_model::specs::Labels::days_in_month))]
fn days_in_month(year: u16, month: u8) -> u8
    ensures { result ≡ days_in_month year month }
{
    if month == 2 {
        return if is_leap_year(year) { 29 } else { 28 };
    }
    if month == 4 || month == 6 || month == 9 || month == 11 {
        30
    } else {
        31
    }
}

#[tactic(auto, unfolding(crate::specs::Moments::is_moment))]
fn is_moment(moment: &Moment) -> bool
    ensures { result ≡ is_moment moment.now }
{
    moment.year <= 9999
        && 1 <= moment.month
        && moment.month <= 12
        && 1 <= moment.day
        && moment.day <= days_in_month(moment.year, moment.month)
        && moment.hour < 24
        && moment.minute < 60
        && moment.second < 60
}

fn moment_of_day(date: Date, time: Time) -> Moment
    ensures { result ≡ moment_of_day date time }
{
    Moment {
        year: date.year,
        month: date.month,
        day: date.day,
        hour: time.hour,
        minute: time.minute,
        second: time.second.unwrap_or(60),
    }
}

fn whole_moment(moment: Moment, fraction: u32) -> Option<Moment>
    ensures { result ≡ whole_moment moment fraction }
{
    if is_moment(&moment) && fraction == 0 {
        Some(moment)
    } else {
        None
    }
}

fn local_moment(told: &Datetime) -> Option<Moment>
    ensures { result ≡ local_moment told.now.date told.now.time told.now.offset }
{
    let date = match told.date {
        Some(date) => date,
        None => return None,
    };
    let time = match told.time {
        Some(time) => time,
        None => return None,
    };
    match told.offset {
        Some(_) => None,
        None => whole_moment(moment_of_day(date, time), time.nanosecond.unwrap_or(0)),
    }
}

// The moment that a value tells, if it tells one: a local date-time in whole seconds.
fn moment_in(value: &Value) -> Option<Moment>
    ensures { result ≡ moment_in (view value.now) }
{
    match value.as_datetime() {
        Some(told) => local_moment(told),
        None => None,
    }
}

#[tactic(auto, unfolding(crate::specs::Fields::kind_tests, crate::specs::Tests::first_fault))]
fn told_moment(value: &Value, place: Place, name: KeyName) -> Result<Moment, PlantStop>
    ensures { Gives result (kind_tests place name kind.moment (view value.now))
        (moment_of (view value.now)) }
{
    match moment_in(value) {
        Some(moment) => Ok(moment),
        None => Err(place.stop(6, name)),
    }
}

/// The local date-time at a key, if the key is there.
#[tactic(auto, unfolding(crate::specs::Fields::value_tests, crate::specs::Tests::first_fault))]
pub fn moment_if_there(table: &Table, place: Place, key: Key) -> Result<Option<Moment>, PlantStop>
    ensures { Gives result (field_tests place (table_view table.now)
        (record { key = key; kind = kind.moment })) (option_map moment_of
        (held (table_view table.now) key)) }
{
    match present(table, place, key)? {
        None => Ok(None),
        Some(value) => Ok(Some(told_moment(value, place, key.name)?)),
    }
}
