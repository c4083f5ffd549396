//! A stack.
ghost use Rattle.std.specs.Prelude.{◌≡◌, ◌<◌, [], ◌∷◌, length, drop, OnOk, OnErr, MatchOption};

use std::alloc::{AllocError, Global};
use std::marker::Model;

/// A stack, in a clause the list of its items with the topmost first.
#[derive(Drop)]
pub struct Stack<T> {
    items: Vec<T>,
}

impl<T> Model for Stack<T> {
    ghost use Rattle.std.specs.Prelude.{List, reverse};
    ghost use Rattle.std.specs.Coded.{coded_list};

    ghost Value = { List T };

    ghost coded = { coded_list T.code };

    ghost view = { λ a. reverse a.items.items };
}

impl<T> Stack<T> {
    /// The empty stack. It takes no memory before the first `push`.
    pub fn new(alloc: Global) -> Stack<T>
        ensures { result ≡ [] }
    {
        Stack {
            items: Vec::new(alloc),
        }
    }

    /// Takes the topmost item off, if there is one.
    pub fn take_top(&mut self) -> Option<T>
        ensures { MatchOption result ((self.old ≡ []) × (self.new ≡ []))
            (λ top. self.old ≡ top ∷ self.new) }
    {
        self.items.pop()
    }
}

impl<T: Drop> Stack<T> {
    /// Puts an item on top. After an error the stack is as before, and the item is dropped.
    pub fn push(&mut self, item: T) -> Result<(), AllocError>
        ensures ok { OnOk result (self.new ≡ item ∷ self.old) }
        ensures err { OnErr result (self.new ≡ self.old) }
    {
        self.items.push(item)?;
        Ok(())
    }
}

impl<T: Copy> Stack<T> {
    /// The topmost item, if there is one.
    pub fn top(&self) -> Option<T>
        ensures { MatchOption result (self.now ≡ []) (λ top. self.now ≡ top ∷ drop 1 self.now) }
    {
        self.items.last().copied()
    }

    /// Takes the topmost item off, which has to be there.
    pub fn pop(&mut self) -> T
        requires { 0 < length self.old }
        ensures { self.old ≡ result ∷ self.new }
    {
        match self.items.pop() {
            Some(top) => top,
            None => unreachable!(),
        }
    }

    /// Puts an item in the place of the topmost one, which has to be there.
    pub fn set_top(&mut self, item: T)
        requires { 0 < length self.old }
        ensures { self.new ≡ item ∷ drop 1 self.old }
    {
        let _top = self.items.pop();
        self.items.push_reserved(item);
    }
}
