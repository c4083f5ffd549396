//! The row of days and hours below a band, where the plant has a calendar.
ghost use Rattle.std.specs.Prelude.{◌≡◌, ◌≤◌, ◌<◌, ◌^◌, ◌++◌, OnOk};
ghost use Rattle.stn_model.specs.Labels.{SoundCalendar};
ghost use Rattle.plan_picture.specs.Days.{is_new_day, tells_day, day_mark, hour_mark, clock_mark, clock_marks, clock_row, days};
ghost use Rattle.plan_picture.specs.Shown.{IsDayRow, IsShown};

use crate::marks::push_words;
use crate::rows::push_row_name;
use crate::scale::{days_top, periods_in, x_at};
use crate::shown::Shown;
use crate::written::Written;
use plant_labels::{moment_at, push_day, push_hour, push_moment};
use std::alloc::Global;
use stn_model::{Calendar, Plant};

/// Where the row of days and hours of a band stands, and what its calendar is.
#[derive(Clone, Copy)]
pub struct DayRow<'a> {
    pub plant: &'a Plant,
    pub calendar: &'a Calendar,
    pub band: u32,
    pub y: u64,
}

/// Appends the days and hours of a band, below all its rows, where the plant has a calendar.
pub fn push_days(alloc: Global, text: &mut Vec<u8>, shown: &Shown, band: u32) -> Written
    requires shown { IsShown shown.now }
    requires there { band ≤ 7 }
    ensures { OnOk result (text.new.items
        ≡ text.old.items ++ days shown.now.plant.now shown.now.states band) }
{
    match &shown.plant.calendar {
        Some(calendar) => {
            let row = DayRow {
                plant: shown.plant,
                calendar,
                band,
                y: days_top(shown.plant, shown.states),
            };
            push_clock_row(alloc, text, &row)
        }
        None => Ok(()),
    }
}

#[tactic(auto, unfolding(crate::specs::Days::clock_row))]
fn push_clock_row(alloc: Global, text: &mut Vec<u8>, row: &DayRow) -> Written
    requires row { IsDayRow row.now }
    ensures { OnOk result (text.new.items
        ≡ text.old.items
        ++ clock_row row.now.plant.now row.now.calendar.now row.now.band row.now.y) }
{
    let mut words = Vec::new(alloc);
    push_moment(&mut words, &moment_at(row.calendar, 48 * row.band))?;
    push_row_name(alloc, text, row.y + 15, words.as_slice())?;
    push_clock_marks(alloc, text, row)
}

// Appends the days and hours at all places of a band.
#[tactic(auto, using(crate::proofs::Ranges::pieces_next))]
fn push_clock_marks(alloc: Global, text: &mut Vec<u8>, row: &DayRow) -> Written
    requires row { IsDayRow row.now }
    ensures { OnOk result (text.new.items
        ≡ text.old.items
        ++ clock_marks row.now.plant.now row.now.calendar.now row.now.band row.now.y) }
{
    for place in 0..periods_in(row.plant, row.band) + 1 {
        push_clock_mark(alloc, text, row, place)?;
    }
    Ok(())
}

#[tactic(auto, unfolding(crate::specs::Days::clock_mark))]
fn push_clock_mark(alloc: Global, text: &mut Vec<u8>, row: &DayRow, place: u32) -> Written
    requires row { IsDayRow row.now }
    requires small { place ≤ 48 }
    ensures { OnOk result (text.new.items
        ≡ text.old.items
        ++ clock_mark row.now.plant.now row.now.calendar.now row.now.band row.now.y place) }
{
    push_day_mark(alloc, text, row, place)?;
    push_hour_mark(alloc, text, row, place)
}

#[tactic(auto, unfolding(crate::specs::Days::day_mark))]
fn push_day_mark(alloc: Global, text: &mut Vec<u8>, row: &DayRow, place: u32) -> Written
    requires row { IsDayRow row.now }
    requires small { place ≤ 48 }
    ensures { OnOk result (text.new.items
        ≡ text.old.items
        ++ day_mark row.now.plant.now row.now.calendar.now row.now.band row.now.y place) }
{
    if tells_day(row, place) {
        let mut words = Vec::new(alloc);
        push_day(&mut words, &moment_at(row.calendar, 48 * row.band + place))?;
        let x = x_at(row.plant, place as u64);
        push_words(alloc, text, "time", x, row.y + 9, words.as_slice())
    } else {
        Ok(())
    }
}

#[tactic(auto, unfolding(crate::specs::Days::hour_mark))]
fn push_hour_mark(alloc: Global, text: &mut Vec<u8>, row: &DayRow, place: u32) -> Written
    requires row { IsDayRow row.now }
    requires small { place ≤ 48 }
    ensures { OnOk result (text.new.items
        ≡ text.old.items
        ++ hour_mark row.now.plant.now row.now.calendar.now row.now.band row.now.y place) }
{
    let mut words = Vec::new(alloc);
    push_hour(&mut words, &moment_at(row.calendar, 48 * row.band + place))?;
    let x = x_at(row.plant, place as u64);
    push_words(alloc, text, "time", x, row.y + 19, words.as_slice())
}

// Whether a place tells its day.
fn tells_day(row: &DayRow, place: u32) -> bool
    requires row { IsDayRow row.now }
    requires small { place ≤ 48 }
    ensures { result ≡ tells_day row.now.calendar.now row.now.band place }
{
    place == 0 || is_new_day(row.calendar, 48 * row.band + place)
}

// Whether the day at a time is another than a period before.
fn is_new_day(calendar: &Calendar, time: u32) -> bool
    requires calendar { SoundCalendar calendar.now }
    requires within { time ≤ 1000 }
    ensures { result ≡ is_new_day calendar.now time }
{
    let before = moment_at(calendar, time.saturating_sub(1));
    moment_at(calendar, time).day != before.day
}
