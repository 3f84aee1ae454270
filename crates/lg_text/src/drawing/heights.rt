//! The heights of links.
ghost use Rattle.std.specs.Prelude.{◌≡◌, ◌+◌, ◌<◌, ◌≤◌, map, length, IfOk};
ghost use Rattle.std.specs.List.{All, filter};
ghost use Rattle.lg_gram.specs.Linkages.{IsForward, link_length};
ghost use Rattle.lg_text.specs.Diagrams.{height, is_inside, greatest};
ghost use Rattle.lg_text.specs.Painted.{AreKnown};

use lg_base::NoMemory;
use lg_gram::Link;
use std::alloc::Global;

// The height of each link. The links are shorter than so many positions.
pub(crate) fn heights(
    alloc: Global,
    links: &[Link],
    positions: usize,
) -> Result<Vec<usize>, NoMemory>
    requires forward { All IsForward links.now }
    requires short { All (λ l. link_length l < positions) links.now }
    ensures { IfOk result (λ heights. heights.items ≡ map (height links.now) links.now) }
{
    let mut heights = Vec::new(alloc);
    heights.resize(links.len(), 0)?;
    for length in 0..positions {
        raise(links, length, &mut heights);
    }
    Ok(heights)
}

// Sets the heights of the links of this length. Those of the shorter links are set.
fn raise(links: &[Link], length: usize, heights: &mut [usize])
    requires forward { All IsForward links.now }
    requires known { AreKnown links.now length heights.old }
    ensures { AreKnown links.now (length + 1) heights.new }
{
    for i in 0..links.len() {
        if length_of(&links[i]) as usize == length {
            heights[i] = highest_inside(links, heights, &links[i]) + 1;
        }
    }
}

fn length_of(link: &Link) -> u32
    requires { IsForward link.now }
    ensures { result ≡ link_length link.now }
{
    link.right - link.left
}

// The height of the highest link inside this one, or 0.
fn highest_inside(links: &[Link], heights: &[usize], link: &Link) -> usize
    requires forward { All IsForward links.now }
    requires one { IsForward link.now }
    requires known { AreKnown links.now (link_length link.now) heights.now }
    ensures value { result ≡ greatest (height links.now) 0 (filter (is_inside link.now) links.now) }
    ensures low { result ≤ link_length link.now }
{
    let mut highest = 0;
    for i in 0..links.len() {
        if is_inside(link, &links[i]) {
            highest = highest.max(heights[i]);
        }
    }
    highest
}

fn is_inside(outer: &Link, inner: &Link) -> bool
    requires outer { IsForward outer.now }
    requires inner { IsForward inner.now }
    ensures { result ≡ is_inside outer.now inner.now }
{
    outer.left <= inner.left && inner.right <= outer.right && length_of(inner) < length_of(outer)
}
