//! Rows, or columns, by how many entries they have left.
use fixed_point::{NONE, place_at, put_place, refill};
use std::alloc::{AllocError, Global};

// The neighbours of an item in its list.
#[derive(Clone, Copy)]
struct Link {
    next: u32,
    before: u32,
}

/// Items in a list for each count.
#[derive(Drop)]
pub struct Ranks {
    first: Vec<u32>,
    links: Vec<Link>,
}

impl Ranks {
    /// No items, with room for so many and for counts up to `counts`.
    pub fn new(alloc: Global, items: usize, counts: usize) -> Result<Ranks, AllocError> {
        Ok(Ranks {
            first: Vec::with_capacity(alloc, counts.saturating_add(1))?,
            links: Vec::with_capacity(alloc, items)?,
        })
    }

    /// Makes all lists empty, for so many items and for counts up to `counts`.
    pub fn clear(&mut self, items: usize, counts: usize) {
        refill(&mut self.first, NONE, counts.saturating_add(1));
        let link = Link {
            next: NONE,
            before: NONE,
        };
        refill(&mut self.links, link, items);
    }

    /// How many items there may be.
    pub fn items(&self) -> usize {
        self.links.len()
    }

    /// The first item of a count.
    pub fn first(&self, count: u32) -> u32 {
        place_at(self.first.as_slice(), count)
    }

    /// The item after this one in its list.
    pub fn next(&self, item: u32) -> u32 {
        match self.links.get(item as usize) {
            None => NONE,
            Some(link) => link.next,
        }
    }

    /// Puts an item first among those of a count.
    pub fn link(&mut self, count: u32, item: u32) {
        let next = self.first(count);
        self.set_before(next, item);
        put_place(self.first.as_mut_slice(), count, item);
        if (item as usize) < self.links.len() {
            self.links[item as usize] = Link { next, before: NONE };
        }
    }

    /// Takes an item out of the list of its count.
    pub fn unlink(&mut self, count: u32, item: u32) {
        if item as usize >= self.links.len() {
            return;
        }
        let link = self.links[item as usize];
        self.set_before(link.next, link.before);
        if link.before == NONE {
            put_place(self.first.as_mut_slice(), count, link.next);
        } else if (link.before as usize) < self.links.len() {
            self.links[link.before as usize].next = link.next;
        }
    }

    // Writes the item before an item.
    fn set_before(&mut self, item: u32, before: u32) {
        if (item as usize) < self.links.len() {
            self.links[item as usize].before = before;
        }
    }
}
