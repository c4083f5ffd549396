//! Lists that have their room before. Reads outside answer a neutral item, writes outside do nothing.
ghost use Rattle.std.specs.Prelude.{◌≤◌};

/// No place of a list.
pub const NONE: u32 = 4_294_967_295;

/// A part of a sum: the place that it belongs to, and how much of it counts.
#[derive(Clone, Copy)]
pub struct Part {
    pub place: u32,
    pub value: i64,
}

/// Puts an item at the end; false, and no item is put, where there is no room. It takes no memory.
#[inline(always)]
pub fn put_last<T: Drop>(list: &mut Vec<T>, item: T) -> bool {
    if list.len() < list.capacity() {
        list.push_reserved(item);
        true
    } else {
        false
    }
}

/// Makes a list hold an item so many times, as far as there is room.
pub fn refill<T: Copy>(list: &mut Vec<T>, item: T, count: usize) {
    list.clear();
    let count = count.min(list.capacity());
    for _ in 0..count {
        put_last(list, item);
    }
}

/// The number at a place, and 0 where there is none.
#[inline(always)]
pub fn at(numbers: &[i64], place: u32) -> i64 {
    match numbers.get(place as usize) {
        None => 0,
        Some(number) => *number,
    }
}

/// Writes the number at a place, where there is one.
#[inline(always)]
pub fn put(numbers: &mut [i64], place: u32, number: i64) {
    if (place as usize) < numbers.len() {
        numbers[place as usize] = number;
    }
}

/// The place that a list tells at a place, and none where there is none.
#[inline(always)]
pub fn place_at(places: &[u32], place: u32) -> u32 {
    match places.get(place as usize) {
        None => NONE,
        Some(place) => *place,
    }
}

/// Writes the place that a list tells at a place, where there is one.
#[inline(always)]
pub fn put_place(places: &mut [u32], place: u32, told: u32) {
    if (place as usize) < places.len() {
        places[place as usize] = told;
    }
}

/// The parts from a place to an end; none where the list has no such places.
#[inline(always)]
pub fn span(parts: &[Part], start: u32, end: u32) -> &[Part] {
    let start = start as usize;
    let end = end as usize;
    if start <= end && end <= parts.len() {
        &parts[start..end]
    } else {
        &[]
    }
}

/// A place as a number of 32 bits, which is none where it is beyond.
#[inline(always)]
pub fn numbered(place: usize) -> u32
    ensures { result ≤ place }
{
    match u32::try_from(place) {
        Ok(number) => number,
        Err(_) => NONE,
    }
}
