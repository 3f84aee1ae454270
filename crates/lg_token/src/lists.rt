//! The words of names, each list of which is made once for a sentence.
ghost use Rattle.std.specs.Prelude.{◌≡◌, Any, IfOk, IfSome, OnOk};
ghost use Rattle.lg_dict.specs.Dictionary.{AreWordsOf};
ghost use Rattle.lg_token.specs.Steps.{AreLists};

use lg_base::{NoMemory, Texts};
use lg_dict::View;
use std::alloc::Global;

// How many lists are kept. A sentence that is listed has no more names: its tokens, and the special words.
const KEPT: usize = 256;

/// A text, or a special word, with its words in the dictionary.
#[derive(Debug, Drop)]
pub(crate) struct Named<'a> {
    pub name: &'a [u8],
    pub words: Texts,
}

/// The words of a name, increasing by bytes: a copy of those that were listed before, and else listed now, and kept.
pub(crate) fn words_of<'a>(
    alloc: Global,
    view: &View,
    lists: &mut Vec<Named<'a>>,
    name: &'a [u8],
) -> Result<Texts, NoMemory>
    requires { AreLists view.now lists.old.items }
    ensures words { IfOk result (AreWordsOf view.now name.now) }
    ensures lists { OnOk result (AreLists view.now lists.new.items) }
{
    if let Some(words) = listed(lists, name) {
        return copied(words);
    }
    let words = view.words_of(alloc, name)?;
    if lists.len() >= KEPT {
        return Ok(words);
    }
    let copy = copied(&words)?;
    lists.push(Named { name, words })?;
    Ok(copy)
}

fn copied(words: &Texts) -> Result<Texts, NoMemory>
    ensures { IfOk result (λ copy. copy ≡ words.now) }
{
    let copy = words.clone()?;
    Ok(copy)
}

// The words of a name that were listed. No memory.
fn listed<'b>(lists: &'b [Named<'_>], name: &[u8]) -> Option<&'b Texts>
    ensures { IfSome result (λ words. Any (λ list. (list.name.now ≡ name.now) × (list.words ≡ words.now)) lists.now) }
{
    for list in lists {
        if list.name == name {
            return Some(&list.words);
        }
    }
    None
}
