//! The rows of halves: a set of halves has a bit for each.
use crate::halves::Half;
use crate::key_set::Rows;

// Halves share a row that have so many right lists, and so many numbers of unlinked words each.
const LISTS: u32 = 16;

const NUMBERS: u8 = 4;

/// What halves have alike that share a row: all but their right lists, whose numbers are in one block of sixteen, and their numbers of
/// unlinked words, which are in one block of four.
#[derive(Clone, Copy, Debug, PartialEq, Eq)]
pub(crate) struct HalfRow {
    pub(crate) word: u8,
    pub(crate) right: u8,
    pub(crate) nulls: u8,
    pub(crate) is_alone: bool,
    pub(crate) from: u32,
    pub(crate) to: u32,
    pub(crate) class: u32,
    pub(crate) block: u32,
}

impl Rows for HalfRow {
    ghost use Rattle.lg_forest.specs.HalfRows.{half_at, half_place, half_row};

    type Key = Half;

    ghost small = { λ _. Unit {0} };

    ghost row = { half_row };

    ghost place = { half_place };

    ghost at = { half_at };

    fn has_room_for(_key: &Half) -> bool {
        true
    }

    fn row_of(key: &Half) -> HalfRow {
        HalfRow {
            word: key.word,
            right: key.right,
            nulls: key.nulls / NUMBERS,
            is_alone: key.is_alone,
            from: key.from,
            to: key.to,
            class: key.class,
            block: key.rlist / LISTS,
        }
    }

    fn place_of(key: &Half) -> u32 {
        key.rlist % LISTS * NUMBERS as u32 + (key.nulls % NUMBERS) as u32
    }

    fn are_rows() {}
}
