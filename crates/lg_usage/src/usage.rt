//! Usage totals.
ghost use Rattle.std.specs.Prelude.{◌≡◌, OnOk, OnErr, IfOk};
ghost use Rattle.lg_usage.specs.Totals.{Adds, IsSum, IsGood, HasRoomFor, HaveNoZero, MayBeAdded, no_totals, usage_text};

use crate::counts::{Counts, make_places, raise_all, write_counts};
use crate::share::{label_counts, word_counts};
use lg_base::NoMemory;
use lg_gram::Linkage;
use std::alloc::Global;
use std::collections::BTreeMap;
use std::marker::Model;

/// How often each dictionary word, and how often each label, is used over some linkages.
///
/// Contracts see `{ words, labels }`, two finite maps from texts to numbers.
#[derive(Drop)]
pub struct Usage {
    alloc: Global,
    words: Counts,
    labels: Counts,
}

impl Model for Usage {
    ghost use Rattle.lg_usage.specs.Totals.{Totals};
    ghost use Rattle.lg_usage.specs.Stored.{tally_of, totals_code};

    ghost Value = { Totals };

    ghost coded = { totals_code };

    ghost view = { λ u. record { words = tally_of u.words.entries; labels = tally_of u.labels.entries } };
}

impl Usage {
    /// No word and no label is used. It takes no memory.
    pub fn new(alloc: Global) -> Usage
        ensures { result ≡ no_totals }
    {
        Usage {
            alloc,
            words: BTreeMap::new(alloc),
            labels: BTreeMap::new(alloc),
        }
    }

    /// Adds one linkage: each linked position uses the word of its disjunct, and each link its label. It is a good linkage of
    /// some problem, and no number passes 2^63. The only error is running out of memory, and then nothing changes.
    pub fn add(&mut self, g: &Linkage) -> Result<(), NoMemory>
        requires good { IsGood g.now }
        requires room { HasRoomFor self.old g.now }
        ensures ok { OnOk result (Adds self.old g.now self.new) }
        ensures err { OnErr result (self.new ≡ self.old) }
    {
        let share = Usage::of(self.alloc, g)?;
        self.merge(&share)
    }

    /// Adds the other's numbers. No sum passes 2^63. The only error is running out of memory, and then nothing changes.
    pub fn merge(&mut self, other: &Usage) -> Result<(), NoMemory>
        requires { MayBeAdded self.old other.now }
        ensures ok { OnOk result (IsSum self.old other.now self.new) }
        ensures err { OnErr result (self.new ≡ self.old) }
    {
        make_places(&mut self.words, self.alloc, &other.words)?;
        make_places(&mut self.labels, self.alloc, &other.labels)?;
        raise_all(&mut self.words, &other.words);
        raise_all(&mut self.labels, &other.labels);
        Ok(())
    }

    /// The text of the totals: a line `usage word WORD N` for each word by its bytes, and then a line `usage label LABEL N` for
    /// each label by its bytes. N is above 0. There is one space between the parts of a line, and a line feed at its end. The
    /// only error is running out of memory.
    pub fn text(&self, alloc: Global) -> Result<Vec<u8>, NoMemory>
        ensures text { IfOk result (λ text. text.items ≡ usage_text self.now) }
        ensures counted { OnOk result (HaveNoZero self.now) }
    {
        let mut out = Vec::new(alloc);
        write_counts(&mut out, b"word", &self.words)?;
        write_counts(&mut out, b"label", &self.labels)?;
        Ok(out)
    }

    // What one linkage uses.
    fn of(alloc: Global, g: &Linkage) -> Result<Usage, NoMemory>
        requires { IsGood g.now }
        ensures { IfOk result (λ share. Adds no_totals g.now share) }
    {
        Ok(Usage {
            alloc,
            words: word_counts(alloc, g)?,
            labels: label_counts(alloc, g)?,
        })
    }
}
