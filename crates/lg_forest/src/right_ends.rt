//! Numbers of the right ends of regions.
ghost use Rattle.std.specs.Prelude.{◌≡◌, ◌<◌, ◌^◌, [], ℕ, Some, slice_get, IfOk, MatchOption, OnErr, OnOk};
ghost use Rattle.std.specs.List.{Contains};
ghost use Rattle.lg_region.specs.Fronts.{AreOnce};
ghost use Rattle.lg_region.specs.Ways.{KeepsFront};
ghost use Rattle.lg_forest.specs.RightEnds.{IsEntry, entry, rows_in};

use lg_base::NoMemory;
use std::alloc::Global;
use std::marker::Model;

// There are fewer right ends, or it is out of memory.
const MOST_ENDS: usize = 1 << 31;

/// Where a region ends: the word there, or the end of the sentence, and the number of the list that it has to its left.
#[derive(Clone, Copy, Debug, PartialEq, Eq)]
pub(crate) struct RightEnd {
    pub(crate) word: u8,
    pub(crate) list: u32,
}

/// Right ends, each once, in the order in which they are met. Contracts see them in a list.
///
/// Of each word and each list `numbers` has one more than the place of their end, or 0 where they are no end yet.
#[derive(Drop)]
pub(crate) struct RightEnds {
    alloc: Global,
    ends: Vec<RightEnd>,
    numbers: Vec<Vec<u32>>,
}

impl Model for RightEnds {
    ghost use Rattle.std.specs.Prelude.{List};
    ghost use Rattle.lg_forest.specs.RightEnds.{AreRightEnds, rows_in as all_rows};
    ghost use Rattle.lg_forest.specs.declared.right_ends.RightEnd.{RightEnd as SeenEnd};

    ghost Value = { List SeenEnd };

    ghost view = { λ e. e.ends.items };

    ghost invariant = { λ e. AreRightEnds e.ends.items (all_rows e.numbers.items) };
}

impl RightEnds {
    /// No end. No memory.
    pub(crate) fn new(alloc: Global) -> RightEnds
        ensures { result ≡ [] }
    {
        RightEnds {
            alloc,
            ends: Vec::new(alloc),
            numbers: Vec::new(alloc),
        }
    }

    /// Each is there once. The function does nothing: a caller whose proof needs the fact calls it.
    pub(crate) fn are_once(&self)
        ensures { AreOnce self.now }
    {
        let _ends = &self.ends;
    }

    /// The place of an end. None where it is not there. No memory.
    pub(crate) fn get(&self, end: &RightEnd) -> Option<u32>
        ensures { MatchOption result (Contains self.now end.now → ⊥) (λ n. slice_get self.now n ≡ Some end.now) }
    {
        match entry_of(&self.numbers, end.word as usize, end.list as usize) {
            0 => None,
            number => Some(number - 1),
        }
    }

    /// The place of an end, which is put last where it is not there. The only error is running out of memory, and then nothing has changed.
    pub(crate) fn give(&mut self, end: RightEnd) -> Result<u32, NoMemory>
        ensures place { IfOk result (λ n. slice_get self.new n ≡ Some end) }
        ensures kept { OnOk result (KeepsFront self.old self.new) }
        ensures unchanged { OnErr result (self.new ≡ self.old) }
    {
        match self.get(&end) {
            Some(place) => Ok(place),
            None => self.push(end),
        }
    }

    // Puts an end last that is not there.
    fn push(&mut self, end: RightEnd) -> Result<u32, NoMemory>
        requires { Contains self.old end → ⊥ }
        ensures place { IfOk result (λ n. slice_get self.new n ≡ Some end) }
        ensures kept { OnOk result (KeepsFront self.old self.new) }
        ensures unchanged { OnErr result (self.new ≡ self.old) }
    {
        let place = self.ends.len();
        if place >= MOST_ENDS {
            return Err(NoMemory);
        }
        let (word, list) = (end.word as usize, end.list as usize);
        make_room(self.alloc, &mut self.numbers, word, list)?;
        self.ends.push(end)?;
        set_entry(&mut self.numbers, word, list, place as u32 + 1);
        Ok(place as u32)
    }
}

// What stands in a row at a place, or 0.
fn entry_of(numbers: &[Vec<u32>], word: usize, list: usize) -> u32
    ensures { result ≡ entry (rows_in numbers.now) word list }
{
    if word >= numbers.len() {
        return 0;
    }
    let row = &numbers[word];
    if list >= row.len() {
        return 0;
    }
    row[list]
}

// Makes room for an entry. The only error is running out of memory.
fn make_room(
    alloc: Global,
    numbers: &mut Vec<Vec<u32>>,
    word: usize,
    list: usize,
) -> Result<(), NoMemory>
    requires { list < 2 ^ 32 }
    ensures same { (w l : ℕ) → entry (rows_in numbers.new.items) w l ≡ entry (rows_in numbers.old.items) w l }
    ensures room { OnOk result (IsEntry (rows_in numbers.new.items) word list) }
{
    while numbers.len() <= word {
        numbers.push(Vec::new(alloc))?;
    }
    let row = &mut numbers[word];
    if row.len() <= list {
        row.resize(list + 1, 0)?;
    }
    Ok(())
}

fn set_entry(numbers: &mut Vec<Vec<u32>>, word: usize, list: usize, number: u32)
    requires { IsEntry (rows_in numbers.old.items) word list }
    ensures there { entry (rows_in numbers.new.items) word list ≡ number }
    ensures others { (w l : ℕ) → ((w ≡ word) × (l ≡ list) → ⊥) → entry (rows_in numbers.new.items) w l ≡ entry (rows_in numbers.old.items) w l }
{
    let row = &mut numbers[word];
    row[list] = number;
}
