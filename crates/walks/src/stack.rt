// A stack of words in lent memory.
ghost use Rattle.std.specs.Prelude.{◌≡◌, ◌≤◌, ◌<◌, length, set, reverse, slice_get};
ghost use Rattle.walks.specs.Stack.{stacked, pushed, popped};

use crate::list::push_entries;
use std::marker::Model;

#[derive(Drop)]
pub struct Stack<'a> {
    words: &'a mut [u64],
    height: usize,
}

impl<'a> Model for Stack<'a> {
    ghost use Rattle.std.specs.Prelude.{◌≤◌, length};
    ghost use Rattle.walks.specs.Stack.{Stacked, stacked};

    ghost Value = { Stacked };

    ghost view = { λ s. stacked s.height s.words.now };

    ghost invariant = { λ s. s.height ≤ length s.words.now };
}

impl<'a> Stack<'a> {
    // With one word on it.
    pub fn with_word(words: &'a mut [u64], word: u64) -> Stack<'a>
        requires { 0 < length words.old }
        ensures { result ≡ stacked 1 (set words.old 0 word) }
    {
        words[0] = word;
        Stack { words, height: 1 }
    }

    // Takes the top off, if there is one.
    pub fn pop(&mut self) -> Option<u64>
        ensures value { result ≡ slice_get self.old.entries 0 }
        ensures stack_after { self.new ≡ popped self.old }
    {
        self.height = self.height.checked_sub(1)?;
        Some(self.words[self.height])
    }

    // Pushes the entries, the first first.
    pub fn push_all(&mut self, entries: &[u64])
        requires { length entries.now ≤ length self.old.free }
        ensures { self.new ≡ pushed (reverse entries.now) self.old }
    {
        self.height = push_entries(self.words, self.height, entries);
    }

    // Pushes the entries, the last first, so that the first is on top.
    pub fn push_reversed(&mut self, entries: &[u64])
        requires { length entries.now ≤ length self.old.free }
        ensures { self.new ≡ pushed entries.now self.old }
    {
        words::write_reversed(self.words, self.height, entries);
        self.height += entries.len();
    }
}
