//! Hash tables whose keys are bytes.

ghost use Rattle.std.specs.Prelude.{◌≡◌, ℕ, List, [], ◌∷◌, ◌++◌, Some, IfOk, IfNone, if◌then◌else◌};
ghost use Rattle.std.specs.Map.{lookup};
ghost use Rattle.lg_dictread.specs.Definitions.{same_text};
ghost use Rattle.lg_dictread.specs.Tables.{text_entries};

use indexmap::IndexMap;
use lg_base::{NoMemory, copied};
use lg_names::Salted;
use std::alloc::Global;

/// A table of names from outside, in the order in which they were added.
pub(crate) type Table<V> = IndexMap<Vec<u8>, V, Salted>;

/// Gives a name this value, and answers the value that it had.
pub(crate) fn add<V: Copy>(
    alloc: Global,
    table: &mut Table<V>,
    name: &[u8],
    value: V,
) -> Result<Option<V>, NoMemory>
    ensures found { IfOk result (λ found. found ≡ lookup (same_text name.now) (text_entries table.old)) }
    ensures added { IfOk result (λ found. IfNone found (text_entries table.new ≡ text_entries table.old ++ (name.now, value) ∷ [])) }
    ensures lookups { IfOk result (λ _. (other : List ℕ) → lookup (same_text other) (text_entries table.new)
        ≡ (if same_text other name.now then Some value else lookup (same_text other) (text_entries table.old))) }
{
    let key = copied(alloc, name)?;
    Ok(table.insert(key, value)?)
}
