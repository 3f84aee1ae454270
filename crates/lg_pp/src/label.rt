//! Labels of links, and which patterns match them.
ghost use Rattle.std.specs.Prelude.{◌≡◌, ◌↔◌, ◌<◌, ◌≤◌, ℕ, Some, length, slice_get, IsTrue, IfOk, ◌⊎◌};
ghost use Rattle.std.specs.List.{Any};
ghost use Rattle.lg_gram.specs.Names.{STAR};
ghost use Rattle.lg_pp.specs.Labels.{IsGood, AreLabels, Matches, FitsOne};
ghost use Rattle.lg_pp.specs.Picked.{AreFirsts, ArePicked};
ghost use Rattle.lg_pp.specs.Reach.{StartsKind, StartsOne};

use crate::flags::Flags;
use lg_base::NoMemory;
use lg_gram::{Label, Linkage};
use lg_knowread::{Pattern, Patterns, Start, Starts};
use std::alloc::Global;
use std::marker::Model;

/// What picks labels.
pub(crate) trait Picks {
    ghost use Rattle.lg_gram.specs.Names.{Name};

    ghost picked: { Self → Name → Type 0 };

    /// Whether it picks the label.
    fn picks(&self, label: &Label) -> bool
        ensures { IsTrue result ↔ picked self.now label.now };
}

/// A pattern picks the labels that it matches.
impl Picks for Pattern {
    ghost use Rattle.lg_pp.specs.Labels.{Matches};

    ghost picked = { Matches };

    fn picks(&self, label: &Label) -> bool {
        fits(self, label)
    }
}

/// Patterns pick the labels that one of them matches.
impl Picks for Patterns {
    ghost use Rattle.lg_pp.specs.Labels.{FitsOne};

    ghost picked = { FitsOne };

    fn picks(&self, label: &Label) -> bool {
        fits_one(self.items(), label)
    }
}

/// Starts pick the labels of links that start a domain.
impl Picks for Starts {
    ghost use Rattle.lg_pp.specs.Reach.{StartsOne};

    ghost picked = { StartsOne };

    fn picks(&self, label: &Label) -> bool {
        starts_one(self.items(), label)
    }
}

/// Starts of one kind.
#[derive(Drop)]
pub(crate) struct OfKind<'a> {
    pub(crate) starts: &'a Starts,
    pub(crate) kind: u8,
}

/// They pick the labels of links that start a domain of this kind.
impl<'a> Picks for OfKind<'a> {
    ghost use Rattle.lg_pp.specs.Reach.{StartsKind};

    ghost picked = { λ test label. StartsKind test.starts.now test.kind label };

    fn picks(&self, label: &Label) -> bool {
        starts_kind(self.starts.items(), self.kind, label)
    }
}

/// The labels of a linkage's links, in its order. Contracts see their list.
#[derive(Drop)]
pub(crate) struct Labels {
    items: Vec<Label>,
    // for each label the place of the first one that is equal to it
    firsts: Vec<usize>,
}

impl Model for Labels {
    ghost use Rattle.std.specs.Prelude.{List};
    ghost use Rattle.lg_gram.specs.Names.{Name};
    ghost use Rattle.lg_pp.specs.Picked.{AreFirsts};

    ghost Value = { List Name };

    ghost view = { λ t. t.items.items };

    ghost invariant = { λ t. AreFirsts t.items.items t.firsts.items };
}

impl Labels {
    /// The labels of a linkage's links.
    pub(crate) fn of(alloc: Global, g: &Linkage) -> Result<Labels, NoMemory>
        requires { IsGood g.now }
        ensures { IfOk result (AreLabels g.now) }
    {
        let items = found_labels(alloc, g)?;
        let firsts = firsts(alloc, &items)?;
        Ok(Labels { items, firsts })
    }

    /// The labels.
    pub(crate) fn items(&self) -> &[Label]
        ensures { result.now ≡ self.now }
    {
        self.items.as_slice()
    }

    /// A flag for each label: whether it is picked. Equal labels are looked at once.
    pub(crate) fn picked<T: Picks>(&self, alloc: Global, test: &T) -> Result<Flags, NoMemory>
        ensures { IfOk result (ArePicked (T.picked test.now) self.now) }
    {
        picked(alloc, &self.items, &self.firsts, test)
    }
}

fn picked<T: Picks>(
    alloc: Global,
    labels: &[Label],
    firsts: &[usize],
    test: &T,
) -> Result<Flags, NoMemory>
    requires { AreFirsts labels.now firsts.now }
    ensures { IfOk result (ArePicked (T.picked test.now) labels.now) }
{
    let mut flags = Vec::new(alloc);
    for (n, label) in labels.iter().enumerate() {
        let first = firsts[n];
        if first < n {
            flags.push(flags[first])?;
        } else {
            flags.push(test.picks(label))?;
        }
    }
    Ok(Flags::of(flags))
}

fn found_labels(alloc: Global, g: &Linkage) -> Result<Vec<Label>, NoMemory>
    requires { IsGood g.now }
    ensures { IfOk result (λ labels. AreLabels g.now labels.items) }
{
    let mut labels = Vec::new(alloc);
    for link in g.links() {
        labels.push(g.label(link))?;
    }
    Ok(labels)
}

// For each label the place of the first one that is equal to it.
fn firsts(alloc: Global, labels: &[Label]) -> Result<Vec<usize>, NoMemory>
    ensures { IfOk result (λ firsts. AreFirsts labels.now firsts.items) }
{
    let mut firsts = Vec::new(alloc);
    for n in 0..labels.len() {
        firsts.push(first_equal(labels, n))?;
    }
    Ok(firsts)
}

fn first_equal(labels: &[Label], n: usize) -> usize
    requires { n < length labels.now }
    ensures within { result ≤ n }
    ensures equal { slice_get labels.now result ≡ slice_get labels.now n }
{
    for k in 0..n {
        if is_same(&labels[k], &labels[n]) {
            return k;
        }
    }
    n
}

fn is_same(a: &Label, b: &Label) -> bool
    ensures { IsTrue result ↔ (a.now.caps ≡ b.now.caps) × (a.now.subs ≡ b.now.subs) }
{
    a.caps() == b.caps() && a.subs() == b.subs()
}

// Whether one of the patterns matches the label.
fn fits_one(patterns: &[Pattern], label: &Label) -> bool
    ensures { IsTrue result ↔ FitsOne patterns.now label.now }
{
    patterns.iter().any(|pattern| fits(pattern, label))
}

// Whether a link with this label starts a domain of this kind.
fn starts_kind(starts: &[Start], kind: u8, label: &Label) -> bool
    ensures { IsTrue result ↔ StartsKind starts.now kind label.now }
{
    starts
        .iter()
        .any(|start| start.kind == kind && fits(&start.pattern, label))
}

// Whether a link with this label starts a domain.
fn starts_one(starts: &[Start], label: &Label) -> bool
    ensures { IsTrue result ↔ StartsOne starts.now label.now }
{
    starts.iter().any(|start| fits(&start.pattern, label))
}

/// Whether the pattern matches the label.
pub(crate) fn fits(pattern: &Pattern, label: &Label) -> bool
    ensures { IsTrue result ↔ Matches pattern.now label.now }
{
    pattern.caps.bytes() == label.caps() && has_letters(pattern.subs.bytes(), label.subs())
}

// Whether each place has a star in the first list, or its letter in the second.
fn has_letters(wanted: &[u8], letters: &[u8]) -> bool
    ensures { IsTrue result ↔ ((k x : ℕ) → slice_get wanted.now k ≡ Some x → (x ≡ STAR) ⊎ (slice_get letters.now k ≡ Some x)) }
{
    for (k, x) in wanted.iter().enumerate() {
        if *x != b'*' && letters.get(k) != Some(x) {
            return false;
        }
    }
    true
}
