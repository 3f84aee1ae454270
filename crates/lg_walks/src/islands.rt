//! Islands: the positions that walks over links join.
ghost use Rattle.std.specs.Prelude.{◌≡◌, ◌<◌, ℕ, length, slice_index};
ghost use Rattle.std.specs.List.{All};
ghost use Rattle.lg_walks.specs.Islands.{IsWithin, AreIslands, GoDown, LeadTo, Merges};

use lg_gram::Link;

/// Labels the positions, of which there are as many as labels: two get the same label exactly where a walk over these
/// links joins them. What the labels were before is no part of the answer. Takes as many steps as there are positions,
/// and two for each link, where the links come by their left ends; seldom more.
pub fn label_islands(links: &[Link], labels: &mut [usize])
    requires within { All (IsWithin (length labels.old)) links.now }
    ensures { AreIslands links.now labels.new }
{
    number(labels);
    for link in links {
        merge(labels, link.left as usize, link.right as usize);
    }
    settle(labels);
}

// Gives each position its own label.
fn number(labels: &mut [usize])
    ensures { (k : ℕ) → k < length labels.old → slice_index labels.new k ≡ k }
{
    for i in 0..labels.len() {
        labels[i] = i;
    }
}

// Until all links are merged, the label of a position is a position of its island, not after it; the least position of
// an island is its root, and has its own label.
fn merge(labels: &mut [usize], a: usize, b: usize)
    requires down { GoDown labels.old }
    requires a { a < length labels.old }
    requires b { b < length labels.old }
    ensures { Merges labels.old a b labels.new }
{
    let from = root(labels, a);
    let to = root(labels, b);
    labels[from.max(to)] = from.min(to);
}

// The root of a position's island.
fn root(labels: &[usize], of: usize) -> usize
    requires down { GoDown labels.now }
    requires of { of < length labels.now }
    ensures within { result < length labels.now }
    ensures own { slice_index labels.now result ≡ result }
    ensures root { (roots : ℕ → ℕ) → LeadTo labels.now roots → result ≡ roots of }
{
    let mut at = of;
    while labels[at] != at {
        at = labels[at];
    }
    at
}

// Gives each position its root for its label.
fn settle(labels: &mut [usize])
    requires down { GoDown labels.old }
    ensures { (roots : ℕ → ℕ) → LeadTo labels.old roots → (k : ℕ) → k < length labels.old → slice_index labels.new k ≡ roots k }
{
    for i in 0..labels.len() {
        labels[i] = labels[labels[i]];
    }
}
