//! Made texts.
ghost use Rattle.std.specs.Prelude.{◌≡◌, ◌≤◌, ◌<◌, ◌%◌, ◌++◌, IfOk, OnOk, codes};
ghost use Rattle.lg_gen.specs.Made.{word, expression, entry_line, made_dictionary, next, drawn, drawn_words, word_count, sentence_line, behind_sentence, made_script, after};

use lg_base::{NoMemory, Text, write_bytes, write_number};
use std::alloc::Global;

/// The text of a dictionary, and the text of a script that parses sentences of its words.
#[derive(Debug, Drop)]
pub struct Generated {
    pub dict: Text,
    pub script: Text,
}

/// The texts that are made from a seed: a dictionary of so many words, and a script of so many sentences.
///
/// The words are `w0`, `w1`, .., with a line each; the expression of number i is chosen by the remainder of i by 4:
///
/// - 0: `D+`
/// - 1: `{D-} & {@M+} & (S+ or O- or J-)`
/// - 2: `S- & {O+} & {@M+}`
/// - 3: `M- & J+`
///
/// The script has a line `parse` with 2 to 8 words for each sentence. Their number and then each of them is drawn: a draw below m
/// first sets a state, which begins as the seed, to (1664525 times the state + 1013904223) modulo 2^32, and then gives the state
/// divided by 65536, modulo m. The number of words is 2 plus a draw below 7; each word is the one whose number is a draw below
/// `words`. Both numbers are from 1 to 100,000. The only error is running out of memory.
pub fn generate(alloc: Global, seed: u32, words: u32, sentences: u32) -> Result<Generated, NoMemory>
    requires words { (1 ≤ words) × (words ≤ 100000) }
    requires sentences { (1 ≤ sentences) × (sentences ≤ 100000) }
    ensures dict { IfOk result (λ made. made.dict ≡ made_dictionary words) }
    ensures script { IfOk result (λ made. made.script ≡ made_script seed words sentences) }
{
    let mut dict = Vec::new(alloc);
    write_dictionary(&mut dict, words)?;
    let mut script = Vec::new(alloc);
    write_script(&mut script, seed, words, sentences)?;
    Ok(Generated {
        dict: Text::of(alloc, &dict)?,
        script: Text::of(alloc, &script)?,
    })
}

fn write_dictionary(out: &mut Vec<u8>, words: u32) -> Result<(), NoMemory>
    ensures { OnOk result (out.new.items ≡ out.old.items ++ made_dictionary words) }
{
    for number in 0..words {
        write_entry(out, number)?;
    }
    Ok(())
}

fn write_entry(out: &mut Vec<u8>, number: u32) -> Result<(), NoMemory>
    ensures { OnOk result (out.new.items ≡ out.old.items ++ entry_line number) }
{
    write_word(out, number)?;
    write_bytes(out, b": ")?;
    write_bytes(out, expression_of(number % 4))?;
    write_bytes(out, b";\n")
}

fn expression_of(remainder: u32) -> &'static [u8]
    ensures { result.now ≡ expression remainder }
{
    match remainder {
        0 => b"D+",
        1 => b"{D-} & {@M+} & (S+ or O- or J-)",
        2 => b"S- & {O+} & {@M+}",
        _ => b"M- & J+",
    }
}

fn write_word(out: &mut Vec<u8>, number: u32) -> Result<(), NoMemory>
    ensures { OnOk result (out.new.items ≡ out.old.items ++ word number) }
{
    write_bytes(out, b"w")?;
    write_number(out, u64::from(number))
}

fn write_script(out: &mut Vec<u8>, seed: u32, words: u32, sentences: u32) -> Result<(), NoMemory>
    requires { 0 < words }
    ensures { OnOk result (out.new.items ≡ out.old.items ++ made_script seed words sentences) }
{
    let mut draws = Draws { state: seed };
    for _ in 0..sentences {
        write_sentence(out, words, &mut draws)?;
    }
    Ok(())
}

fn write_sentence(out: &mut Vec<u8>, words: u32, draws: &mut Draws) -> Result<(), NoMemory>
    requires { 0 < words }
    ensures text { OnOk result (out.new.items ≡ out.old.items ++ sentence_line words draws.old.state) }
    ensures state { OnOk result (draws.new.state ≡ behind_sentence draws.old.state) }
{
    write_bytes(out, b"parse")?;
    let count = 2 + draws.below(7);
    write_drawn(out, words, draws, count)?;
    write_bytes(out, b"\n")
}

// So many words are drawn, and each is written behind a space.
fn write_drawn(out: &mut Vec<u8>, words: u32, draws: &mut Draws, count: u32) -> Result<(), NoMemory>
    requires { 0 < words }
    ensures text { OnOk result (out.new.items ≡ out.old.items ++ drawn_words words count draws.old.state) }
    ensures state { OnOk result (draws.new.state ≡ after count draws.old.state) }
{
    for _ in 0..count {
        write_one_drawn(out, words, draws)?;
    }
    Ok(())
}

fn write_one_drawn(out: &mut Vec<u8>, words: u32, draws: &mut Draws) -> Result<(), NoMemory>
    requires { 0 < words }
    ensures text { OnOk result (out.new.items ≡ out.old.items ++ (codes " " ++ word (drawn words (next draws.old.state)))) }
    ensures state { OnOk result (draws.new.state ≡ next draws.old.state) }
{
    write_bytes(out, b" ")?;
    write_word(out, draws.below(words))
}

/// Numbers that are drawn one after another, each from a state that the one before left.
#[derive(Drop)]
struct Draws {
    state: u32,
}

impl Draws {
    /// The next number below m.
    fn below(&mut self, m: u32) -> u32
        requires { 0 < m }
        ensures state { self.new.state ≡ next self.old.state }
        ensures number { result ≡ drawn m (next self.old.state) }
    {
        let sum = u64::from(self.state) * 1664525 + 1013904223;
        self.state = (sum % (1 << 32)) as u32;
        self.state / 65536 % m
    }
}
