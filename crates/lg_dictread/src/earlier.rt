//! What is read of a dictionary text so far.

ghost use Rattle.std.specs.Prelude.{◌≡◌, ◌<◌, ℕ, List, [], ◌∷◌, ◌++◌, Some, IfOk, IfSome, OnOk, length, map, if◌then◌else◌};
ghost use Rattle.std.specs.List.{list_any};
ghost use Rattle.std.specs.Map.{lookup};
ghost use Rattle.std.specs.Option.{option_map};
ghost use Rattle.lg_gram.specs.Trees.{tree_of};
ghost use Rattle.lg_gram.specs.Fits.{Fits};
ghost use Rattle.lg_dictread.specs.Definitions.{same_text};
ghost use Rattle.lg_dictread.specs.Tables.{text_entries};
ghost use Rattle.lg_dictread.specs.Texts.{nothing};
ghost use Rattle.lg_dictread.specs.DictTexts.{entry_meaning};
ghost use Rattle.lg_dictread.specs.Recalling.{Writes};
ghost use Rattle.lg_dictread.specs.Reading.{entry_formula, formula_at, number_of_section, formulas_of, earlier_of, named_meaning, RecallsAt, IsKept};

use crate::define::{Names, Tables};
use crate::formula::FormulaRead;
use crate::salted::salted_by;
use crate::table::{Table, add};
use indexmap::IndexMap;
use lg_base::{NoMemory, Text, Texts};
use lg_expr::Known;
use lg_gram::{Entry, Formula};
use std::alloc::Global;

/// What is read of a text so far: its words and macros with their lines, its entries, the number of the entry of each macro,
/// and the number of an entry for each text of an expression that is recalled.
#[derive(Drop)]
pub(crate) struct Earlier {
    pub(crate) tables: Tables,
    pub(crate) formulas: Table<usize>,
    pub(crate) sections: Table<usize>,
    pub(crate) entries: Vec<Entry>,
}

impl lg_gram::Macros for Earlier {
    ghost use Rattle.lg_dictread.specs.Reading.{formulas_of};

    ghost formulas = { formulas_of };

    fn named(&self, name: &[u8]) -> Option<(&Formula, u32)> {
        match self.entry_of(name) {
            Some(entry) => {
                // the call tells that the formula is within the limits
                let _expr = entry.formula.expr();
                Some((&entry.formula, entry.level))
            }
            None => None,
        }
    }
}

impl lg_expr::Macros for Earlier {
    ghost use Rattle.lg_expr.specs.Fits.{known_as};
    ghost use Rattle.lg_dictread.specs.Reading.{formulas_of};

    ghost known = { λ earlier name. known_as (formulas_of earlier name) };

    fn known(&self, name: &[u8]) -> Known {
        match lg_gram::Macros::named(self, name) {
            Some((_, level)) => Known::Leveled(level),
            None => Known::Unknown,
        }
    }
}

impl Earlier {
    /// Nothing is read of this text.
    pub(crate) fn new(alloc: Global, text: &[u8]) -> Earlier
        ensures earlier { earlier_of result ≡ nothing }
        ensures kept { IsKept result }
        ensures entries { result.entries.items ≡ [] }
    {
        let salted = salted_by(text);
        Earlier {
            tables: Tables {
                words: IndexMap::with_hasher(alloc, salted),
                macros: IndexMap::with_hasher(alloc, salted),
            },
            formulas: IndexMap::with_hasher(alloc, salted),
            sections: IndexMap::with_hasher(alloc, salted),
            entries: Vec::new(alloc),
        }
    }

    /// The entry of a macro.
    fn entry_of(&self, name: &[u8]) -> Option<&Entry>
        ensures { option_map (λ e. entry_formula e.now) result ≡ formulas_of self.now name.now }
    {
        match self.formulas.get(name) {
            Some(at) => self.entries.get(*at),
            None => None,
        }
    }

    /// The entry whose expression is written so, if it is recalled.
    pub(crate) fn recalled(&self, section: &[u8]) -> Option<&Entry>
        ensures { option_map (λ e. entry_formula e.now) result ≡ formula_at self.now.entries.items (number_of_section self.now section.now) }
    {
        match self.sections.get(section) {
            Some(number) => self.entries.get(*number),
            None => None,
        }
    }

    /// One more entry, on this line, whose items define these names and whose expression has this formula.
    pub(crate) fn push(
        &mut self,
        alloc: Global,
        names: Names,
        read: FormulaRead<'_>,
        line: u32,
    ) -> Result<(), NoMemory>
        requires kept { IsKept self.old }
        requires fits { Fits read.level (tree_of read.formula) }
        requires written { IfSome read.section (λ s. Writes (formulas_of self.old) s.now (tree_of read.formula) read.level) }
        ensures tables { self.new.tables ≡ self.old.tables }
        ensures kept { OnOk result (IsKept self.new) }
        ensures meanings { OnOk result (map entry_meaning self.new.entries.items
            ≡ map entry_meaning self.old.entries.items ++ named_meaning names (tree_of read.entry.formula) read.entry.level line ∷ []) }
        ensures formulas { OnOk result (formulas_of self.new
            ≡ (λ name. if list_any (same_text name) names.macros.items then Some (tree_of read.entry.formula, read.entry.level) else formulas_of self.old name)) }
    {
        let number = self.entries.len();
        let macros = Texts::of(names.macros);
        let formula = shared(alloc, read.formula, read.section)?;
        remember(
            alloc,
            &mut self.sections,
            macros.items(),
            read.section,
            number,
        )?;
        name_entry(alloc, &mut self.formulas, macros.items(), number)?;
        self.entries.push(Entry {
            words: Texts::of(names.words),
            macros,
            formula,
            level: read.level,
            line,
        })?;
        Ok(())
    }
}

// The formula, shared where other entries will have it too.
fn shared(alloc: Global, formula: Formula, section: Option<&[u8]>) -> Result<Formula, NoMemory>
    ensures { IfOk result (λ f. f ≡ formula) }
{
    match section {
        Some(_) => formula.shared(alloc),
        None => Ok(formula),
    }
}

/// Recalls the entry of this number by its section. What macros stand for decides what an expression means, so an entry that
/// defines macros ends all that is recalled.
fn remember(
    alloc: Global,
    sections: &mut Table<usize>,
    macros: &[Text],
    section: Option<&[u8]>,
    number: usize,
) -> Result<(), NoMemory>
    ensures forgets { OnOk result (0 < length macros.now → text_entries sections.new ≡ []) }
    ensures recalls { OnOk result (length macros.now ≡ 0 → (text : List ℕ) → RecallsAt (text_entries sections.old) (text_entries sections.new) section.entry number text) }
{
    if !macros.is_empty() {
        let salted = *sections.hasher();
        *sections = IndexMap::with_hasher(alloc, salted);
        return Ok(());
    }
    if let Some(section) = section {
        add(alloc, sections, section, number)?;
    }
    Ok(())
}

/// Gives the macros the number of their entry.
fn name_entry(
    alloc: Global,
    formulas: &mut Table<usize>,
    macros: &[Text],
    number: usize,
) -> Result<(), NoMemory>
    ensures { OnOk result ((name : List ℕ) → lookup (same_text name) (text_entries formulas.new)
        ≡ (if list_any (same_text name) macros.now then Some number else lookup (same_text name) (text_entries formulas.old))) }
{
    for name in macros {
        add(alloc, formulas, name.bytes(), number)?;
    }
    Ok(())
}
