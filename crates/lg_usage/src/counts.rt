//! Numbers by text.
//!
//! A change that may fail first makes a place for each text that has none, with the number 0, which means nothing. What counts is
//! set in a step that cannot fail.
ghost use Rattle.std.specs.Prelude.{◌≡◌, ◌+◌, ◌≤◌, ◌++◌, ℕ, List, OnOk};
ghost use Rattle.std.specs.List.{flat_map};
ghost use Rattle.std.specs.FinMap.{entries};
ghost use Rattle.lg_usage.specs.Totals.{GREATEST, usage_line};
ghost use Rattle.lg_usage.specs.Stored.{tally_of, number, HasPlace, OnlyMakesRoom, Raises, RaisesAll, AreSmall};

use lg_base::{NoMemory, copied, write_bytes, write_number};
use std::alloc::Global;
use std::collections::BTreeMap;

/// A number for each text, by the bytes of the text.
pub(crate) type Counts = BTreeMap<Vec<u8>, u64>;

/// Makes a place for the text.
pub(crate) fn make_place(counts: &mut Counts, alloc: Global, text: &[u8]) -> Result<(), NoMemory>
    ensures room { OnlyMakesRoom counts.old counts.new }
    ensures there { OnOk result (HasPlace counts.new text.now) }
{
    if !counts.contains_key(text) {
        let key = copied(alloc, text)?;
        counts.insert(key, 0)?;
    }
    Ok(())
}

/// Makes a place for each text of the others.
pub(crate) fn make_places(
    counts: &mut Counts,
    alloc: Global,
    others: &Counts,
) -> Result<(), NoMemory>
    ensures room { OnlyMakesRoom counts.old counts.new }
    ensures there { OnOk result ((text : List ℕ) → HasPlace others.now text → HasPlace counts.new text) }
{
    for (text, _) in others.iter() {
        make_place(counts, alloc, text.as_slice())?;
    }
    Ok(())
}

/// Adds to the number of a text that has a place.
pub(crate) fn raise(counts: &mut Counts, text: &[u8], more: u64)
    requires there { HasPlace counts.old text.now }
    requires small { number counts.old text.now + more ≤ GREATEST }
    ensures { Raises counts.old text.now more counts.new }
{
    if let Some(number) = counts.get_mut(text) {
        *number += more;
    }
}

/// Adds the others' numbers. Each of their texts has a place.
pub(crate) fn raise_all(counts: &mut Counts, others: &Counts)
    requires there { (text : List ℕ) → HasPlace others.now text → HasPlace counts.old text }
    requires small { AreSmall counts.old others.now }
    ensures { RaisesAll counts.old others.now counts.new }
{
    for (text, more) in others.iter() {
        raise(counts, text.as_slice(), *more);
    }
}

/// Appends a line for each text whose number is above 0, by the bytes of the text.
pub(crate) fn write_counts(out: &mut Vec<u8>, kind: &[u8], counts: &Counts) -> Result<(), NoMemory>
    ensures { OnOk result (out.new.items ≡ out.old.items ++ flat_map (usage_line kind.now) (entries (tally_of counts.now.entries))) }
{
    for (text, number) in counts.iter() {
        if *number > 0 {
            write_count(out, kind, text.as_slice(), *number)?;
        }
    }
    Ok(())
}

fn write_count(out: &mut Vec<u8>, kind: &[u8], text: &[u8], number: u64) -> Result<(), NoMemory>
    ensures { OnOk result (out.new.items ≡ out.old.items ++ usage_line kind.now (text.now, number)) }
{
    write_bytes(out, b"usage ")?;
    write_bytes(out, kind)?;
    write_bytes(out, b" ")?;
    write_bytes(out, text)?;
    write_bytes(out, b" ")?;
    write_number(out, number)?;
    write_bytes(out, b"\n")
}
