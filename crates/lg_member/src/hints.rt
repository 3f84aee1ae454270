//! Where a list may have been met before.
use lg_base::NoMemory;
use lg_gram::Connector;
use std::alloc::Global;
use std::collections::HashMap;

/// Guesses at the number of a list. A guess may be wrong, and costs no more than a look.
///
/// Disjuncts stand in order, so that the lists of one come in the order in which they came before: what came behind a number
/// the last time is the best guess, or the same number where it came twice in a row. Where that is wrong, lists are found by what they hold.
#[derive(Drop)]
pub(crate) struct Hints<'a> {
    last: usize,
    // Whether the last two lists were the same.
    stays: bool,
    behind: Vec<usize>,
    numbers: HashMap<&'a [Connector], usize>,
}

impl<'a> Hints<'a> {
    pub(crate) fn new(alloc: Global) -> Hints<'a> {
        Hints {
            last: 0,
            stays: false,
            behind: Vec::new(alloc),
            numbers: HashMap::new(alloc),
        }
    }

    /// The best guess: the list before, where it came twice in a row, else what came behind it.
    pub(crate) fn first(&self) -> usize {
        if self.stays { self.last } else { self.next() }
    }

    /// The other one of these two.
    pub(crate) fn second(&self) -> usize {
        if self.stays { self.next() } else { self.last }
    }

    // What other list came behind the list before.
    fn next(&self) -> usize {
        self.behind.get(self.last).copied().unwrap_or(0)
    }

    /// The number of a list that is equal, maybe of another position.
    pub(crate) fn equal(&self, list: &[Connector]) -> usize {
        self.numbers.get(list).copied().unwrap_or(0)
    }

    /// The list before now is this number.
    pub(crate) fn met(&mut self, number: usize) {
        let last = self.last;
        self.stays = last == number;
        if self.stays {
            return;
        }
        if let Some(behind) = self.behind.get_mut(last) {
            *behind = number;
        }
        self.last = number;
    }

    /// A list has a new number.
    pub(crate) fn add(&mut self, list: &'a [Connector], number: usize) -> Result<(), NoMemory> {
        self.behind.push(usize::MAX)?;
        let _ = self.numbers.insert(list, number)?;
        Ok(())
    }
}
