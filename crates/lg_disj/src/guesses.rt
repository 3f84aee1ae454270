//! Guesses at where a list was met before.
use lg_gram::Connector;
use std::mem;

// How many guesses are kept.
const GUESSES: usize = 256;

/// For lists of numbers, a number that was kept for a list with the same slot. A guess may be wrong, and costs no more than a look.
#[derive(Drop)]
pub(crate) struct Guesses {
    numbers: [usize; GUESSES],
}

impl Guesses {
    pub(crate) fn new() -> Guesses {
        Guesses {
            numbers: [0; GUESSES],
        }
    }

    /// The guess at a slot.
    pub(crate) fn at(&self, slot: usize) -> usize {
        self.numbers.get(slot).copied().unwrap_or(0)
    }

    /// The guess at a slot. The next one is this number.
    pub(crate) fn replace(&mut self, slot: usize, number: usize) -> usize {
        match self.numbers.get_mut(slot) {
            Some(kept) => mem::replace(kept, number),
            None => 0,
        }
    }
}

/// The slot of a list.
pub(crate) fn slot_of(list: &[usize]) -> usize {
    let mut slot: usize = 0;
    for number in list {
        slot = slot.wrapping_mul(31).wrapping_add(*number);
    }
    slot % GUESSES
}

/// The slot of a connector.
pub(crate) fn slot_of_connector(connector: &Connector) -> usize {
    let side = usize::from(connector.is_right());
    let slot = slot_behind(slot_behind(side, connector.caps()), connector.subs());
    slot % GUESSES
}

fn slot_behind(start: usize, text: &[u8]) -> usize {
    let mut slot = start;
    for byte in text {
        slot = slot.wrapping_mul(31).wrapping_add(usize::from(*byte));
    }
    slot
}
