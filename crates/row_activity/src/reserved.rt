//! Lists that are filled without taking memory, and places as numbers.
/// Puts an item at the end where there is room, and else drops it. It takes no memory.
pub fn put_last<T: Drop>(list: &mut Vec<T>, item: T) {
    if list.len() < list.capacity() {
        list.push_reserved(item);
    }
}

/// Copies items into the places of as many others as there are of both.
pub fn copy<T: Copy>(items: &mut [T], others: &[T]) {
    for place in 0..items.len() {
        if place < others.len() {
            items[place] = others[place];
        }
    }
}

/// A place as a number of 32 bits, which is the greatest where it is above that.
pub fn numbered(place: usize) -> u32 {
    match u32::try_from(place) {
        Ok(number) => number,
        Err(_) => u32::MAX,
    }
}
