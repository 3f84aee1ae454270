//! The edits that the codes of a history name, and the dictionary after them.
ghost use Rattle.std.specs.Prelude.{◌≡◌, IfOk};
ghost use Rattle.lg_script.specs.Commands.{script_views};
ghost use Rattle.lg_script.specs.Codes.{AreScripts};
ghost use Rattle.lg_core.specs.Core.{IsCore};
ghost use Rattle.lg_core.specs.Steps.{newest_of};

use crate::state::Core;
use lg_base::NoMemory;
use lg_dict::{Dict, View};
use lg_edit::apply;
use lg_script::Scripts;
use std::alloc::Global;

/// The dictionary after all edits of the history. The only error is running out of memory.
pub(crate) fn newest<'a>(
    alloc: Global,
    base: &'a Dict,
    scripts: &Scripts,
    core: &Core,
) -> Result<View<'a>, NoMemory>
    requires scripts { AreScripts (script_views scripts.now) }
    requires core { IsCore (script_views scripts.now) base.now core.now }
    ensures { IfOk result (λ view. view ≡ newest_of (script_views scripts.now) base.now core.now) }
{
    let mut view = View::of(alloc, base);
    for code in core.history.items() {
        let (_, edit) = scripts.edit_of(*code);
        apply(alloc, &mut view, edit)?;
    }
    Ok(view)
}
