//! What the clock shows at the times of a plant with a calendar.
ghost use Rattle.std.specs.Prelude.{◌≡◌, ◌≤◌, ◌<◌, ◌++◌, OnOk};
ghost use Rattle.stn_model.specs.Labels.{SoundCalendar, is_leap_year, days_in_month};
ghost use Rattle.plant_labels.specs.Clock.{
  next_day,
  days_later,
  second_of,
  at_second,
  moment_at,
  two_digits,
  year_text,
  day_text,
  hour_text,
  moment_text,
};

use std::alloc::AllocError;
use stn_model::{Calendar, Moment};

/// The moment at a time of a plant with this calendar: so many periods after its start. It takes a step for each day between.
#[tactic(auto, unfolding(crate::specs::Clock::minutes_later))]
pub fn moment_at(calendar: &Calendar, time: u32) -> Moment
    requires sound { SoundCalendar calendar.now }
    requires within { time ≤ 1000 }
    ensures { result ≡ moment_at calendar.now time }
{
    let seconds = second_of(&calendar.start) + 60 * (calendar.minutes * time);
    let day = days_later(calendar.start, seconds / 86_400);
    at_second(day, seconds % 86_400)
}

// How many seconds of its day are over at a moment.
fn second_of(moment: &Moment) -> u32
    ensures { result ≡ second_of moment.now }
{
    3600 * moment.hour as u32 + (60 * moment.minute as u32 + moment.second as u32)
}

// The moment of the same day at which so many seconds of it are over.
fn at_second(moment: Moment, second: u32) -> Moment
    requires { second < 86400 }
    ensures { result ≡ at_second moment second }
{
    Moment {
        hour: (second / 3600) as u8,
        minute: (second / 60 % 60) as u8,
        second: (second % 60) as u8,
        ..moment
    }
}

// The same time so many days later.
#[tactic(auto, using(crate::proofs::Days::one_more))]
fn days_later(moment: Moment, days: u32) -> Moment
    requires year { moment.year ≤ 9999 }
    requires within { days ≤ 7001 }
    ensures { result ≡ days_later moment days }
{
    let mut later = moment;
    for _ in 0..days {
        later = next_day(&later);
    }
    later
}

// The same time of the next day.
fn next_day(moment: &Moment) -> Moment
    requires { moment.now.year ≤ 20000 }
    ensures { result ≡ next_day moment.now }
{
    if moment.day < days_in_month(moment.year, moment.month) {
        Moment {
            day: moment.day + 1,
            ..*moment
        }
    } else if moment.month < 12 {
        Moment {
            month: moment.month + 1,
            day: 1,
            ..*moment
        }
    } else {
        Moment {
            year: moment.year + 1,
            month: 1,
            day: 1,
            ..*moment
        }
    }
}

// How many days a month has.
fn days_in_month(year: u16, month: u8) -> u8
    ensures { result ≡ days_in_month year month }
{
    match month {
        2 if is_leap_year(year) => 29,
        2 => 28,
        4 | 6 | 9 | 11 => 30,
        _ => 31,
    }
}

// A leap year of the Gregorian calendar.
fn is_leap_year(year: u16) -> bool
    ensures { result ≡ is_leap_year year }
{
    year % 4 == 0 && (year % 100 != 0 || year % 400 == 0)
}

// Appends the last two digits of a number.
fn push_two(text: &mut Vec<u8>, number: u16) -> Result<(), AllocError>
    ensures { OnOk result (text.new.items ≡ text.old.items ++ two_digits number) }
{
    text.push(b'0' + (number / 10 % 10) as u8)?;
    text.push(b'0' + (number % 10) as u8)?;
    Ok(())
}

// Appends a year.
fn push_year(text: &mut Vec<u8>, year: u16) -> Result<(), AllocError>
    ensures { OnOk result (text.new.items ≡ text.old.items ++ year_text year) }
{
    if year >= 10_000 {
        text.push(b'0' + (year / 10_000 % 10) as u8)?;
    }
    push_two(text, year / 100)?;
    push_two(text, year)
}

/// Appends the day of a moment in its year, as `12-24`.
#[tactic(auto, unfolding(crate::specs::Clock::day_text))]
pub fn push_day(text: &mut Vec<u8>, moment: &Moment) -> Result<(), AllocError>
    ensures { OnOk result (text.new.items ≡ text.old.items ++ day_text moment.now) }
{
    push_two(text, moment.month as u16)?;
    text.push(b'-')?;
    push_two(text, moment.day as u16)
}

/// Appends the hour of a moment, as `18:30`.
#[tactic(auto, unfolding(crate::specs::Clock::hour_text))]
pub fn push_hour(text: &mut Vec<u8>, moment: &Moment) -> Result<(), AllocError>
    ensures { OnOk result (text.new.items ≡ text.old.items ++ hour_text moment.now) }
{
    push_two(text, moment.hour as u16)?;
    text.push(b':')?;
    push_two(text, moment.minute as u16)
}

/// Appends a moment, as `2026-12-24T18:30:00`.
#[tactic(auto, unfolding(crate::specs::Clock::moment_text))]
pub fn push_moment(text: &mut Vec<u8>, moment: &Moment) -> Result<(), AllocError>
    ensures { OnOk result (text.new.items ≡ text.old.items ++ moment_text moment.now) }
{
    push_year(text, moment.year)?;
    text.push(b'-')?;
    push_day(text, moment)?;
    text.push(b'T')?;
    push_hour(text, moment)?;
    text.push(b':')?;
    push_two(text, moment.second as u16)
}
