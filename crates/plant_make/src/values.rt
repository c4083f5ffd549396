//! Values of a plant file: numbers, lists of numbers, limits, parts.
ghost use Rattle.std.specs.Prelude.{◌≡◌, ◌<◌, ◌≤◌, ◌==◌, ◌^◌, All, IfOk, OnOk, option_map, map};
ghost use Rattle.std.specs.List.{list_all};
ghost use Rattle.toml.specs.Data.{integer};
ghost use Rattle.toml.specs.View.{view, table_view};
ghost use Rattle.stn_model.specs.Sound.{IsPart};
ghost use Rattle.plant_make.specs.Entries.{number, numbers, some_amounts, with_entry};
ghost use Rattle.plant_make.specs.Numbers.{lone, several, part_of};
ghost use Rattle.plant_make.specs.Printed.{lone_rate, part_text, until_of};

use crate::table::{put_items, put_some};
use crate::written::Written;
use fraction::Fraction;
use plant_text::KeyName;
use std::alloc::{AllocError, Global};
use stn_model::{Last, Utility};
use toml::{Table, Value};

/// A whole number.
pub fn number_value(n: u64) -> Value
    requires { n < 2 ^ 63 }
    ensures { view result ≡ number n }
{
    Value::Integer(n as i64)
}

/// A whole number of 32 bits.
pub fn short_value(n: u32) -> Value
    ensures { view result ≡ number n }
{
    number_value(u64::from(n))
}

/// An array of whole numbers.
fn numbers_value(alloc: Global, items: &[u64]) -> Result<Value, AllocError>
    requires { All (λ n. n ≤ 1000000000) items.now }
    ensures { IfOk result (λ v. view v ≡ numbers items.now) }
{
    let mut values = Vec::new(alloc);
    for item in items {
        values.push(number_value(*item))?;
    }
    Ok(Value::Array(values))
}

/// An array of whole numbers of 32 bits.
pub fn shorts_value(alloc: Global, items: &[u32]) -> Result<Value, AllocError>
    ensures { IfOk result (λ v. view v ≡ numbers items.now) }
{
    let mut values = Vec::new(alloc);
    for item in items {
        values.push(short_value(*item))?;
    }
    Ok(Value::Array(values))
}

// Whether all limits are this number.
fn are_all(limits: &[u64], n: u64) -> bool
    ensures { result ≡ list_all (λ k. k == n) limits.now }
{
    for limit in limits {
        if *limit != n {
            return false;
        }
    }
    true
}

/// The one number that all limits are, if there is one.
#[tactic(auto, unfolding(crate::specs::Numbers::lone))]
fn lone_value(limits: &[u64]) -> Option<Value>
    requires { All (λ n. n ≤ 1000000000) limits.now }
    ensures { option_map view result ≡ option_map number (lone limits.now) }
{
    if limits.is_empty() {
        return None;
    }
    let first = limits[0];
    if are_all(limits, first) {
        Some(number_value(first))
    } else {
        None
    }
}

/// The limits, where they are not all the same.
#[tactic(auto, unfolding(crate::specs::Numbers::several))]
fn several_value(alloc: Global, limits: &[u64]) -> Result<Option<Value>, AllocError>
    requires { All (λ n. n ≤ 1000000000) limits.now }
    ensures { IfOk result (λ v. option_map view v ≡ option_map numbers (several limits.now)) }
{
    if limits.is_empty() {
        return Ok(None);
    }
    if are_all(limits, limits[0]) {
        return Ok(None);
    }
    let value = numbers_value(alloc, limits)?;
    Ok(Some(value))
}

/// Puts limits: one number where they are all the same, else their list; nothing where there are none.
pub fn put_limits(alloc: Global, table: &mut Table, limits: &[u64]) -> Written
    requires { All (λ n. n ≤ 1000000000) limits.now }
    ensures { OnOk result
        (table_view table.new ≡ with_entry (with_entry (table_view table.old)
        (KeyName.Limit, option_map number (lone limits.now)))
        (KeyName.Limits, option_map numbers (several limits.now))) }
{
    put_some(alloc, table, KeyName::Limit, lone_value(limits))?;
    let several = several_value(alloc, limits)?;
    put_some(alloc, table, KeyName::Limits, several)
}

/// Amounts of money as values.
fn amount_values(alloc: Global, amounts: &[i64]) -> Result<Vec<Value>, AllocError>
    ensures { IfOk result (λ values. map view values.items ≡ map integer amounts.now) }
{
    let mut values = Vec::new(alloc);
    for amount in amounts {
        values.push(Value::Integer(*amount))?;
    }
    Ok(values)
}

/// The one rate of a utility, where it has no rates by period.
fn rate_value(utility: &Utility) -> Option<Value>
    ensures { option_map view result ≡ lone_rate utility.now }
{
    if utility.rates.is_empty() {
        Some(Value::Integer(utility.rate))
    } else {
        None
    }
}

/// Puts what a utility costs: its rates by period where it has some, else its one rate.
pub fn put_rates(alloc: Global, table: &mut Table, utility: &Utility) -> Written
    ensures { OnOk result
        (table_view table.new ≡ with_entry (with_entry (table_view table.old)
        (KeyName.Rate, lone_rate utility.now))
        (KeyName.Rates, some_amounts utility.now.rates)) }
{
    put_some(alloc, table, KeyName::Rate, rate_value(utility))?;
    let rates = amount_values(alloc, utility.rates.as_slice())?;
    put_items(alloc, table, KeyName::Rates, rates)
}

/// The time at which the batch that held a unit last ends, where there is one and it is not 0.
pub fn until_value(last: Option<Last>) -> Option<Value>
    ensures { option_map view result ≡ until_of last }
{
    match last {
        Some(last) => {
            if last.until == 0 {
                None
            } else {
                Some(Value::Integer(i64::from(last.until)))
            }
        }
        None => None,
    }
}

// The part that an amount is of the quantum, in lowest terms.
fn part_of(amount: u64, quantum: u32) -> Fraction
    requires some { 1 ≤ quantum }
    requires part { IsPart quantum amount }
    ensures { result ≡ part_of quantum amount }
{
    match Fraction::of(amount as u32, quantum) {
        Some(part) => part,
        None => unreachable!(),
    }
}

/// The text of the part that an amount is of the quantum.
pub fn part_value(alloc: Global, amount: u64, quantum: u32) -> Result<Value, AllocError>
    requires some { 1 ≤ quantum }
    requires part { IsPart quantum amount }
    ensures { IfOk result (λ v. view v ≡ part_text quantum amount) }
{
    let part = part_of(amount, quantum);
    let over = part.over;
    let under = part.under;
    let text = format!(in alloc; "{over}/{under}")?;
    Ok(Value::String(text))
}
