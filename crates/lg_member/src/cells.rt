//! Tables of sites, by position and by the capital letters of their connectors.
ghost use Rattle.std.specs.Prelude.{◌≡◌, ◌<◌, ◌↔◌, [], length, IfOk, OnErr, OnOk, IsTrue};
ghost use Rattle.std.specs.List.{All, Any, Contains};
ghost use Rattle.lg_member.specs.Cells.{Adds, AddsTo, IsEmpty, Stands, cell_at, cell_count as cells_for, class_of as class_in};

use lg_base::NoMemory;
use std::alloc::Global;
use std::marker::Model;

// How many classes of capital letters there are: so many cells a table has for each position.
const CLASSES: usize = 64;

/// Sites of which one may be as wide as another, and then stands for it too.
pub trait Wide: Copy {
    ghost wider: { Self → Self → Type 0 };

    /// Whether it is as wide as the other site.
    fn is_wider(&self, site: &Self) -> bool
        ensures { IsTrue result ↔ wider self.now site.now };

    ghost itself: { (site : Self) → wider site site };
}

/// A table of sites for a number of words: a cell for each position and each class of capital letters.
#[derive(Drop)]
pub struct Cells<S> {
    words: u32,
    cells: Vec<Vec<S>>,
}

impl<S> Model for Cells<S> {
    ghost use Rattle.std.specs.Prelude.{◌≡◌, length, map};
    ghost use Rattle.lg_member.specs.Cells.{Table, cell_count};

    ghost Value = { Table S };

    ghost view = { λ t. record { words = t.words; cells = map (λ v. v.items) t.cells.items } };

    ghost invariant = { λ t. length t.cells.items ≡ cell_count t.words };
}

impl<S: Wide> Cells<S> {
    /// A table for so many words, without sites. The only error is running out of memory.
    pub fn new(alloc: Global, words: u32) -> Result<Cells<S>, NoMemory>
        ensures words { IfOk result (λ table. table.words ≡ words) }
        ensures empty { IfOk result IsEmpty }
    {
        let cells = empty(alloc, words)?;
        Ok(Cells { words, cells })
    }

    /// The sites in the cell of a position and a class, which `class_of` gives.
    pub fn at(&self, position: usize, class: usize) -> &[S]
        requires { class < CLASSES }
        ensures { (site : S) → Contains result.now site ↔ Stands self.now position class site }
    {
        let number = cell_of(self.words, position, class);
        &self.cells[number]
    }

    /// Adds a site to the cell of a position and some capital letters, where none that is there is as wide. The only error is
    /// running out of memory, and then the table is as it was.
    pub fn push(&mut self, position: usize, caps: &[u8], site: &S) -> Result<(), NoMemory>
        ensures unchanged { OnErr result (self.new ≡ self.old) }
        ensures added { OnOk result (Adds S.wider position (class_in caps.now) site.now self.old self.new) }
    {
        let number = cell_of(self.words, position, class_of(caps));
        push_site(site, &mut self.cells[number])?;
        Ok(())
    }
}

fn empty<S: Wide>(alloc: Global, words: u32) -> Result<Vec<Vec<S>>, NoMemory>
    ensures long { IfOk result (λ cells. length cells.items ≡ cells_for words) }
    ensures none { IfOk result (λ cells. All (λ cell. cell.items ≡ []) cells.items) }
{
    let count = (words as usize + 1) * CLASSES;
    let mut cells = Vec::with_capacity(alloc, count)?;
    for _number in 0..count {
        cells.push(Vec::new(alloc))?;
    }
    Ok(cells)
}

fn push_site<S: Wide>(site: &S, cell: &mut Vec<S>) -> Result<(), NoMemory>
    ensures unchanged { OnErr result (cell.new.items ≡ cell.old.items) }
    ensures added { OnOk result (AddsTo S.wider site.now cell.old.items cell.new.items) }
{
    if has_wider(site, cell) {
        return Ok(());
    }
    cell.push(*site)?;
    Ok(())
}

fn has_wider<S: Wide>(site: &S, cell: &[S]) -> bool
    ensures { IsTrue result ↔ Any (λ wide. S.wider wide site.now) cell.now }
{
    cell.iter().any(|wide| wide.is_wider(site))
}

// The cell of a position and a class. Positions past the words, of which there are none, share a row of cells.
fn cell_of(words: u32, position: usize, class: usize) -> usize
    requires { class < CLASSES }
    ensures value { result ≡ cell_at words position class }
    ensures small { result < cells_for words }
{
    position.min(words as usize) * CLASSES + class
}

/// The class of some capital letters, below 64.
pub fn class_of(caps: &[u8]) -> usize
    ensures value { result ≡ class_in caps.now }
    ensures small { result < CLASSES }
{
    let mut number = 0;
    for letter in caps {
        number = (number * 31 + *letter as usize) % CLASSES;
    }
    number
}
