//! The lines of links of a diagram.
ghost use Rattle.std.specs.Prelude.{◌≡◌, ◌∷◌, ◌++◌, [], true, map, length, replicate, IfOk, OnOk, if◌then◌else◌};
ghost use Rattle.std.specs.List.{All, filter, list_any, range_with_len};
ghost use Rattle.lg_gram.specs.Rules.{IsMatched, HasLink, rights_of, lefts_of};
ghost use Rattle.lg_text.specs.Diagrams.{drawn_of, ends_at, spans, shows_at, first_shown, is_at, is_above, character_at, trimmed, link_line_at, link_lines, highest};
ghost use Rattle.lg_text.specs.Painted.{Paints, IsWithin};

use crate::drawing::heights::heights;
use lg_base::{NoMemory, write_bytes};
use lg_gram::{Label, Linkage};
use std::alloc::Global;
use std::marker::Model;

// A link as it is drawn: the columns of its ends, its label and its height.
#[derive(Drop)]
pub(crate) struct Drawn {
    from: usize,
    to: usize,
    label: Label,
    height: usize,
}

impl Model for Drawn {
    ghost use Rattle.std.specs.Prelude.{◌++◌};
    ghost use Rattle.lg_text.specs.Diagrams.{Drawn as Seen};

    ghost Value = { Seen };

    ghost view = { λ d. record { from = d.from; to = d.to; label = d.label.caps ++ d.label.subs; height = d.height } };
}

impl Drawn {
    // What the link shows at a column between its ends.
    fn byte_at(&self, column: usize) -> u8
        requires { spans column self.now ≡ true }
        ensures { result ≡ shows_at column self.now }
    {
        let letters = self.label.letters();
        let dashes = (self.to - self.from - 1).saturating_sub(letters.len());
        let front = dashes / 2;
        let at = column - self.from - 1;
        if at < front {
            return b'-';
        }
        let letter = at - front;
        if letter < letters.len() {
            letters[letter]
        } else {
            b'-'
        }
    }
}

// The links as they are drawn, by the columns at which the positions start.
pub(crate) fn drawn_links(
    alloc: Global,
    g: &Linkage,
    starts: &[usize],
) -> Result<Vec<Drawn>, NoMemory>
    requires matched { IsMatched (rights_of g.now) (lefts_of g.now) (HasLink g.now) }
    requires placed { length starts.now ≡ length g.now.chosen }
    ensures { IfOk result (λ drawn. drawn.items ≡ map (drawn_of g.now starts.now) g.now.links) }
{
    let links = g.links();
    let heights = heights(alloc, links, starts.len())?;
    let mut drawn = Vec::new(alloc);
    for i in 0..links.len() {
        drawn.push(Drawn {
            from: starts[links[i].left as usize],
            to: starts[links[i].right as usize],
            label: g.label(&links[i]),
            height: heights[i],
        })?;
    }
    Ok(drawn)
}

// Appends the lines of links, the highest first, each behind the mark. A line has so many columns.
pub(crate) fn write_link_lines(
    alloc: Global,
    out: &mut Vec<u8>,
    mark: &[u8],
    links: &[Drawn],
    columns: usize,
) -> Result<(), NoMemory>
    requires { All (IsWithin columns) links.now }
    ensures { OnOk result (out.new.items ≡ out.old.items ++ link_lines mark.now links.now columns (highest links.now)) }
{
    let mut height = highest(links);
    while height > 0 {
        write_bytes(out, mark)?;
        write_link_line(alloc, out, links, columns, height)?;
        height -= 1;
    }
    Ok(())
}

fn highest(links: &[Drawn]) -> usize
    ensures { result ≡ highest links.now }
{
    let mut highest = 0_usize;
    for link in links {
        highest = highest.max(link.height);
    }
    highest
}

fn write_link_line(
    alloc: Global,
    out: &mut Vec<u8>,
    links: &[Drawn],
    columns: usize,
    height: usize,
) -> Result<(), NoMemory>
    requires { All (IsWithin columns) links.now }
    ensures { OnOk result (out.new.items ≡ out.old.items ++ (link_line_at links.now columns height ++ 10 ∷ [])) }
{
    let mut line = Vec::new(alloc);
    line.resize(columns, b' ')?;
    draw_line(&mut line, links, height);
    write_bytes(out, without_spaces(&line))?;
    write_bytes(out, b"\n")
}

// Draws the line of this height over spaces.
fn draw_line(line: &mut [u8], links: &[Drawn], height: usize)
    requires within { All (IsWithin (length line.old)) links.now }
    requires blank { line.old ≡ replicate (length line.old) 32 }
    ensures { line.new ≡ map (character_at links.now height) (range_with_len 0 (length line.old)) }
{
    draw_bars(line, links, height);
    draw_links(line, links, height);
    draw_ends(line, links, height);
}

// The line without the spaces at its end.
fn without_spaces(line: &[u8]) -> &[u8]
    ensures { result.now ≡ trimmed line.now }
{
    let mut n = line.len();
    while n > 0 && line[n - 1] == b' ' {
        n -= 1;
    }
    &line[..n]
}

// Draws a bar at both ends of each higher link.
fn draw_bars(line: &mut [u8], links: &[Drawn], height: usize)
    requires { All (IsWithin (length line.old)) links.now }
    ensures { Paints (λ c b. if list_any (ends_at c) (filter (is_above height) links.now) then 124 else b) line.old line.new }
{
    for link in links {
        if link.height > height {
            mark_ends(line, link, b'|');
        }
    }
}

// Draws a plus sign at both ends of each link of this height.
fn draw_ends(line: &mut [u8], links: &[Drawn], height: usize)
    requires { All (IsWithin (length line.old)) links.now }
    ensures { Paints (λ c b. if list_any (ends_at c) (filter (is_at height) links.now) then 43 else b) line.old line.new }
{
    for link in links {
        if link.height == height {
            mark_ends(line, link, b'+');
        }
    }
}

fn mark_ends(line: &mut [u8], link: &Drawn, mark: u8)
    requires { IsWithin (length line.old) link.now }
    ensures { Paints (λ c b. if ends_at c link.now then mark else b) line.old line.new }
{
    line[link.from] = mark;
    line[link.to] = mark;
}

// Draws what stands between the ends of each link of this height, from the last link to the first.
fn draw_links(line: &mut [u8], links: &[Drawn], height: usize)
    requires { All (IsWithin (length line.old)) links.now }
    ensures { Paints (λ c b. first_shown c (filter (spans c) (filter (is_at height) links.now)) b) line.old line.new }
{
    let mut rest = links.len();
    while rest > 0 {
        rest -= 1;
        let link = &links[rest];
        if link.height == height {
            draw_link(line, link);
        }
    }
}

fn draw_link(line: &mut [u8], link: &Drawn)
    requires { IsWithin (length line.old) link.now }
    ensures { Paints (λ c b. if spans c link.now then shows_at c link.now else b) line.old line.new }
{
    for column in link.from + 1..link.to {
        line[column] = link.byte_at(column);
    }
}
