//! The keys of a calendar: when the horizon begins, and how many minutes a period takes.
ghost use Rattle.std.specs.Prelude.{◌≡◌, OnOk, option_map};
ghost use Rattle.toml.specs.Data.{datetime};
ghost use Rattle.toml.specs.View.{view, table_view};
ghost use Rattle.plant_make.specs.Entries.{with_entry};
ghost use Rattle.plant_make.specs.Printed.{date_time, start_of, minutes_of};

use crate::table::put_some;
use crate::values::short_value;
use crate::written::Written;
use plant_text::KeyName;
use std::alloc::Global;
use stn_model::{Calendar, Moment};
use toml::value::{Date, Datetime, Time};
use toml::{Table, Value};

/// A moment as a local date-time of whole seconds.
fn moment_value(moment: Moment) -> Value
    ensures { view result ≡ datetime (date_time moment) }
{
    let date = Date {
        year: moment.year,
        month: moment.month,
        day: moment.day,
    };
    let time = Time {
        hour: moment.hour,
        minute: moment.minute,
        second: Some(moment.second),
        nanosecond: None,
    };
    Value::Datetime(Datetime {
        date: Some(date),
        time: Some(time),
        offset: None,
    })
}

/// When the horizon begins, where there is a calendar.
fn start_value(calendar: Option<Calendar>) -> Option<Value>
    ensures { option_map view result ≡ start_of calendar }
{
    match calendar {
        Some(calendar) => Some(moment_value(calendar.start)),
        None => None,
    }
}

/// How many minutes a period takes, where there is a calendar.
fn minutes_value(calendar: Option<Calendar>) -> Option<Value>
    ensures { option_map view result ≡ minutes_of calendar }
{
    match calendar {
        Some(calendar) => Some(short_value(calendar.minutes)),
        None => None,
    }
}

/// Puts the keys of a calendar, where there is one.
pub fn put_calendar(alloc: Global, table: &mut Table, calendar: Option<Calendar>) -> Written
    ensures { OnOk result (table_view table.new ≡ with_entry (with_entry (table_view table.old)
        (KeyName.Start, start_of calendar)) (KeyName.Minutes, minutes_of calendar)) }
{
    put_some(alloc, table, KeyName::Start, start_value(calendar))?;
    put_some(alloc, table, KeyName::Minutes, minutes_value(calendar))
}
