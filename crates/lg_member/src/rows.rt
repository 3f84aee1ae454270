//! Members, written by position.
ghost use Rattle.std.specs.Prelude.{◌≡◌, map, IfOk};
ghost use Rattle.std.specs.List.{range_with_len};
ghost use Rattle.lg_member.specs.Members.{row_at};

use crate::made::Made;
use crate::member::Member;
use lg_base::NoMemory;
use lg_gram::{Disjuncts, Positions};
use std::alloc::Global;

/// The disjuncts of the members, by position, of so many words. The only error is running out of memory.
pub fn rows_of(alloc: Global, words: u32, members: &[Member<'_>]) -> Result<Positions, NoMemory>
    ensures { IfOk result (λ rows. rows ≡ map (row_at members.now) (range_with_len 0 words)) }
{
    let mut made = Made::new(alloc);
    let mut rows = Vec::new(alloc);
    for position in 0..words {
        let row = row_of(alloc, position, members, &mut made)?;
        rows.push(row)?;
    }
    Ok(Positions::of(rows))
}

fn row_of(
    alloc: Global,
    position: u32,
    members: &[Member<'_>],
    made: &mut Made,
) -> Result<Disjuncts, NoMemory>
    ensures { IfOk result (λ row. row ≡ row_at members.now position) }
{
    let mut row = Vec::new(alloc);
    for member in members {
        if member.position == position {
            let disjunct = made.disjunct_of(alloc, member)?;
            row.push(disjunct)?;
        }
    }
    Ok(Disjuncts::of(row))
}
