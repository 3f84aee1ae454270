//! Disjuncts that are made of forms.
ghost use Rattle.std.specs.Prelude.{◌≡◌, ◌↔◌, IfOk, IsTrue};
ghost use Rattle.lg_member.specs.Members.{formed};

use crate::member::Member;
use lg_base::NoMemory;
use lg_gram::{Connector, Connectors, Disjunct, Word};
use std::alloc::Global;

/// The lists that were made, by the numbers of sides: disjuncts that have a side share its list.
#[derive(Drop)]
pub(crate) struct Made {
    lefts: Vec<Option<Connectors>>,
    rights: Vec<Option<Connectors>>,
}

impl Made {
    pub(crate) fn new(alloc: Global) -> Made {
        Made {
            lefts: Vec::new(alloc),
            rights: Vec::new(alloc),
        }
    }

    /// The disjunct of a member. The only error is running out of memory.
    pub(crate) fn disjunct_of(
        &mut self,
        alloc: Global,
        member: &Member<'_>,
    ) -> Result<Disjunct, NoMemory>
        ensures { IfOk result (λ d. d ≡ formed member.now.form) }
    {
        let form = &member.form;
        let word = same_word(form.word)?;
        let left = list_of(alloc, &mut self.lefts, member.left, form.left)?;
        let right = list_of(alloc, &mut self.rights, member.right, form.right)?;
        Ok(Disjunct {
            word,
            left,
            right,
            cost: *form.cost,
        })
    }
}

fn same_word(word: &Word) -> Result<Word, NoMemory>
    ensures { IfOk result (λ copy. copy ≡ word.now) }
{
    Ok(word.clone()?)
}

// A list: the one that was made for this number, where it is the same.
fn list_of(
    alloc: Global,
    made: &mut Vec<Option<Connectors>>,
    number: usize,
    list: &[Connector],
) -> Result<Connectors, NoMemory>
    ensures { IfOk result (λ made. made ≡ list.now) }
{
    if let Some(Some(known)) = made.get(number) {
        if is_same(known.items(), list) {
            return shared(known);
        }
    }
    let fresh = connectors_of(alloc, list)?;
    keep(made, number, shared(&fresh)?)?;
    Ok(fresh)
}

fn is_same(a: &[Connector], b: &[Connector]) -> bool
    ensures { IsTrue result ↔ (a.now ≡ b.now) }
{
    a == b
}

fn shared(list: &Connectors) -> Result<Connectors, NoMemory>
    ensures { IfOk result (λ copy. copy ≡ list.now) }
{
    Ok(list.clone()?)
}

fn connectors_of(alloc: Global, list: &[Connector]) -> Result<Connectors, NoMemory>
    ensures { IfOk result (λ made. made ≡ list.now) }
{
    let mut connectors = Vec::with_capacity(alloc, list.len())?;
    connectors.extend_from_slice(list)?;
    Connectors::of(alloc, connectors)
}

// Keeps a list for a number.
fn keep(
    made: &mut Vec<Option<Connectors>>,
    number: usize,
    list: Connectors,
) -> Result<(), NoMemory> {
    while made.len() <= number {
        made.push(None)?;
    }
    if let Some(kept) = made.get_mut(number) {
        *kept = Some(list);
    }
    Ok(())
}
