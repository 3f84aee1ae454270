//! The journal of sessions, from the codes of their history.
ghost use Rattle.std.specs.Prelude.{◌≡◌, true, IfOk};
ghost use Rattle.std.specs.List.{list_all};
ghost use Rattle.lg_log.specs.Codes.{is_code};
ghost use Rattle.lg_script.specs.EditNumbers.{edit_counts};
ghost use Rattle.lg_script.specs.Codes.{AreScripts, places_of};
ghost use Rattle.lg_script.specs.Commands.{script_views};

use lg_base::NoMemory;
use lg_gram::Place;
use lg_script::Scripts;
use std::alloc::Global;

/// The places of the edits that these codes name, in the same order. The only error is running out of memory.
pub(crate) fn journal_of(
    alloc: Global,
    scripts: &Scripts,
    codes: &[u64],
) -> Result<Vec<Place>, NoMemory>
    requires scripts { AreScripts (script_views scripts.now) }
    requires codes { list_all (is_code (edit_counts (script_views scripts.now))) codes.now ≡ true }
    ensures { IfOk result (λ places. places.items ≡ places_of (script_views scripts.now) codes.now) }
{
    let mut places = Vec::with_capacity(alloc, codes.len())?;
    for code in codes {
        let (place, _) = scripts.edit_of(*code);
        places.push(place)?;
    }
    Ok(places)
}
