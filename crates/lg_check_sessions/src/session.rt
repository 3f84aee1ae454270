//! That calls succeed: a script with every kind of answer, by an engine that knows a sentence if it is a word.
ghost use Rattle.std.specs.Prelude.{◌≡◌, ◌+◌, ◌≤◌, ◌<◌, ◌^◌, [], ◌∷◌, length, map, All, IfOk, OnOk};
ghost use Rattle.lg_gram.specs.declared.entry.ItemKind.TheVariants.{Word};
ghost use Rattle.lg_gram.specs.Trees.{tree_of};
ghost use Rattle.lg_gram.specs.Formulas.{LevelFits};
ghost use Rattle.lg_dict.specs.Dictionary.{AreEntries};
ghost use Rattle.lg_edit.specs.Edits.{edit_view, DefinesAsItMay, IsEditInBounds};
ghost use Rattle.lg_script.specs.Bounds.{IsInBounds};
ghost use Rattle.lg_script.specs.Commands.{command_view, script_views};
ghost use Rattle.lg_script.specs.Codes.{AreScripts};
ghost use Rattle.lg_check_sessions.specs.Small.{IsSmall};

use lg_base::{NoMemory, Text, Texts};
use lg_dict::{Dict, View};
use lg_edit::Edit;
use lg_gram::{
    Connector, EditRefusal, Entry, Expr, Formula, Item, ItemKind, Items, Page, PageItems, Place,
    RawEntry, RawExpr, Replies, Reply, Stats, Token, Tokens,
};
use lg_script::{Command, Commands, Scripts};
use lg_session::{Engine, FreeGate, Opening, Outcome, WholeReplies, run_sessions};
use lg_token::{bound_of, tokens};
use std::alloc::Global;
use std::process::Abort;
use std::test::Fail;
use std::thread::Threads;

// Its pages are empty. A page stands behind as many candidates as are wanted, or five, and tells whether the sentence is a word.
pub(crate) struct Toy;

#[derive(Drop)]
pub(crate) struct ToyHeld {
    tokens: Tokens,
    position: u64,
    want: u64,
    known: bool,
}

impl Engine for Toy {
    ghost use Rattle.std.specs.Prelude.{◌≡◌, ◌+◌, ◌≤◌, [], unwrap_or, is_some};
    ghost use Rattle.std.specs.FinMap.{get};

    type Held = ToyHeld;

    ghost meaning = { λ toy. record {
      shows = λ dict progress page. (page.next ≡ progress.position + unwrap_or progress.want 5 + 1) × (page.«end» ≡ is_some (get dict.words progress.text));
      counts = λ dict text stats. Unit {0};
    } };

    ghost stands = { λ toy held dict progress. (held.position ≡ progress.position) × (held.want ≡ unwrap_or progress.want 5) × (held.want ≤ 1000000)
        × (held.known ≡ is_some (get dict.words progress.text)) × (progress.tokens ≡ held.tokens) };

    fn begin<R: Threads + Sync>(
        &self,
        _rt: &R,
        alloc: Global,
        view: &View,
        text: &Text,
        first: u64,
        want: Option<u64>,
    ) -> Result<Opening<ToyHeld>, NoMemory> {
        let Ok(sentence) = str::from_utf8(text.bytes()) else {
            unreachable!()
        };
        let tokens = tokens(alloc, view, sentence)?;
        if let Some(bound) = bound_of(view, tokens.items()) {
            return Ok(Opening::Beyond(bound));
        }
        let held = ToyHeld {
            tokens,
            position: first - 1,
            want: want.unwrap_or(5),
            known: view.get(text.bytes()).is_some(),
        };
        let (held, tokens, page) = shown(alloc, held)?;
        let stats = Stats {
            disjuncts: 0,
            kept: 0,
        };
        Ok(Opening::Listed {
            held,
            tokens,
            page,
            stats,
        })
    }

    fn more(&self, alloc: Global, held: ToyHeld) -> Result<(ToyHeld, Tokens, Page), NoMemory> {
        shown(alloc, held)
    }
}

// The next page.
fn shown(alloc: Global, held: ToyHeld) -> Result<(ToyHeld, Tokens, Page), NoMemory>
    requires position { held.position ≤ 2 ^ 60 }
    requires want { held.want ≤ 1000000 }
    ensures held { IfOk result (λ r. r.0 ≡ record held { position = held.position + held.want }) }
    ensures tokens { IfOk result (λ r. r.1 ≡ held.tokens) }
    ensures next { IfOk result (λ r. r.2.next ≡ held.position + held.want + 1) }
    ensures known { IfOk result (λ r. r.2.«end» ≡ held.known) }
{
    let tokens = copied(alloc, &held.tokens)?;
    let position = held.position + held.want;
    let page = Page {
        items: PageItems::of(Vec::new(alloc)),
        next: position + 1,
        end: held.known,
    };
    let held = ToyHeld { position, ..held };
    Ok((held, tokens, page))
}

// The same tokens.
fn copied(alloc: Global, tokens: &Tokens) -> Result<Tokens, NoMemory>
    ensures { IfOk result (λ copy. copy ≡ tokens.now) }
{
    let mut items = Vec::new(alloc);
    for token in tokens.items() {
        items.push(copied_token(alloc, token)?)?;
    }
    Ok(Tokens::of(items))
}

fn copied_token(alloc: Global, token: &Token) -> Result<Token, NoMemory>
    ensures { IfOk result (λ copy. copy ≡ token.now) }
{
    let mut words = Vec::new(alloc);
    for word in token.words.items() {
        words.push(Text::of(alloc, word.bytes())?)?;
    }
    Ok(Token {
        from: token.from,
        to: token.to,
        text: Text::of(alloc, token.text.bytes())?,
        words: Texts::of(words),
    })
}

fn connector(name: &[u8]) -> Result<Connector, Fail> {
    let connector = Connector::of(name, b"", false, true).ok_or("a name")?;
    Ok(connector)
}

// A dictionary with the word `a`.
pub(crate) fn dictionary(alloc: Global) -> Result<Dict, Fail> {
    let mut entries = Vec::new(alloc);
    entries.push(entry(alloc)?)?;
    let dict = Dict::of(alloc, entries)?;
    Ok(dict)
}

fn entry(alloc: Global) -> Result<Entry, Fail>
    ensures { IfOk result (λ entry. AreEntries (entry ∷ [])) }
{
    let formula = Formula::of(Expr::Conn(connector(b"A")?)).ok_or("a formula")?;
    let mut words = Vec::new(alloc);
    words.push(Text::of(alloc, b"a")?)?;
    Ok(Entry {
        words: Texts::of(words),
        macros: Texts::of(Vec::new(alloc)),
        formula,
        level: 0,
        line: 1,
    })
}

pub(crate) fn parse(alloc: Global, sentence: &str) -> Result<Command, Fail>
    requires { length sentence.now < 2 ^ 32 }
    ensures { IfOk result (λ command. IsInBounds (command_view command)) }
{
    let text = Text::of(alloc, sentence.as_bytes())?;
    Ok(Command::Parse(text))
}

fn list(alloc: Global, first: u64, want: u64, sentence: &str) -> Result<Command, Fail>
    requires first { (1 ≤ first) × (first ≤ 1000000) }
    requires want { (1 ≤ want) × (want ≤ 1000000) }
    requires sentence { length sentence.now < 2 ^ 32 }
    ensures { IfOk result (λ command. IsInBounds (command_view command)) }
{
    let text = Text::of(alloc, sentence.as_bytes())?;
    Ok(Command::List(first, want, text))
}

fn del(alloc: Global, word: &[u8]) -> Result<Command, Fail>
    ensures { IfOk result (λ command. IsInBounds (command_view command)) }
{
    let word = Text::of(alloc, word)?;
    Ok(Command::Edit(Edit::Del(word)))
}

// Gives a word an expression without brackets.
fn raw_entry(alloc: Global, word: &[u8], expr: RawExpr) -> Result<RawEntry, Fail>
    ensures items { IfOk result (λ e. e.items ≡ record { kind = Word; text = word.now } ∷ []) }
    ensures expr { IfOk result (λ e. e.expr ≡ expr) }
    ensures level { IfOk result (λ e. e.level ≡ 0) }
{
    let mut items = Vec::new(alloc);
    let text = Text::of(alloc, word)?;
    items.push(Item {
        kind: ItemKind::Word,
        text,
    })?;
    Ok(RawEntry {
        items: Items::of(items),
        expr,
        level: 0,
        line: 1,
    })
}

pub(crate) fn put(alloc: Global, word: &[u8], name: &[u8]) -> Result<Command, Fail>
    ensures { IfOk result (λ command. IsInBounds (command_view command)) }
{
    let expr = RawExpr::Conn(connector(name)?);
    let entry = raw_entry(alloc, word, expr)?;
    Ok(Command::Edit(Edit::Put(entry)))
}

fn put_macro(alloc: Global, word: &[u8], name: &[u8]) -> Result<Command, Fail>
    ensures { IfOk result (λ command. IsInBounds (command_view command)) }
{
    let expr = RawExpr::Named(Text::of(alloc, name)?, 0);
    let entry = raw_entry(alloc, word, expr)?;
    Ok(Command::Edit(Edit::Put(entry)))
}

// Adds a command.
pub(crate) fn add(commands: &mut Vec<Command>, command: Command) -> Result<(), Fail>
    requires few { length commands.old.items < 100 }
    requires each { All IsInBounds (map command_view commands.old.items) }
    requires in_bounds { IsInBounds (command_view command) }
    ensures one_more { OnOk result (length commands.new.items ≡ length commands.old.items + 1) }
    ensures each { OnOk result (All IsInBounds (map command_view commands.new.items)) }
{
    commands.push(command)?;
    Ok(())
}

// Asks before the first edit, edits, and goes on.
fn add_first(alloc: Global, commands: &mut Vec<Command>) -> Result<(), Fail>
    requires few { length commands.old.items < 50 }
    requires each { All IsInBounds (map command_view commands.old.items) }
    ensures more { OnOk result (length commands.new.items ≡ length commands.old.items + 6) }
    ensures each { OnOk result (All IsInBounds (map command_view commands.new.items)) }
{
    add(commands, Command::Version)?;
    add(commands, Command::More)?;
    add(commands, parse(alloc, "b")?)?;
    add(commands, put(alloc, b"b", b"A")?)?;
    add(commands, Command::More)?;
    add(commands, Command::Version)
}

// 253 signs, each of which is a token.
const SIGNS: &str = "????????????????????????????????????????????????????????????????\
    ????????????????????????????????????????????????????????????????\
    ????????????????????????????????????????????????????????????????\
    ?????????????????????????????????????????????????????????????";

// Lists by the new version, is refused twice, and passes the bound.
fn add_second(alloc: Global, commands: &mut Vec<Command>) -> Result<(), Fail>
    requires few { length commands.old.items < 50 }
    requires each { All IsInBounds (map command_view commands.old.items) }
    ensures more { OnOk result (length commands.new.items ≡ length commands.old.items + 6) }
    ensures each { OnOk result (All IsInBounds (map command_view commands.new.items)) }
{
    add(commands, list(alloc, 3, 4, "b")?)?;
    add(commands, del(alloc, b"c")?)?;
    add(commands, put_macro(alloc, b"c", b"<n>")?)?;
    add(commands, parse(alloc, SIGNS)?)?;
    add(commands, Command::More)?;
    add(commands, del(alloc, b"b")?)
}

// The script of these commands.
pub(crate) fn commands_of(alloc: Global, commands: Vec<Command>) -> Result<Commands, Fail>
    requires few { length commands.items < 100 }
    requires each { All IsInBounds (map command_view commands.items) }
    ensures { IfOk result IsSmall }
{
    let commands = Commands::of(alloc, commands)?;
    Ok(commands)
}

fn scripts(alloc: Global) -> Result<Scripts, Fail>
    ensures { IfOk result (λ scripts. AreScripts (script_views scripts)) }
{
    let mut commands = Vec::new(alloc);
    add_first(alloc, &mut commands)?;
    add_second(alloc, &mut commands)?;
    let mut lists = Vec::new(alloc);
    lists.push(commands_of(alloc, commands)?)?;
    Ok(Scripts::of(lists))
}

fn run<R: Threads + Sync>(rt: &R, alloc: Global) -> Result<Outcome<Replies>, Fail> {
    let dict = dictionary(alloc)?;
    let scripts = scripts(alloc)?;
    let outcome = run_sessions(rt, alloc, &dict, &scripts, &Toy, &FreeGate, &WholeReplies)?;
    Ok(outcome)
}

// What an answer tells: the version, where the page stops and whether the sentence is a word.
#[derive(Clone, Copy, Debug, PartialEq, Eq)]
pub(crate) enum Told {
    First(u64, u64, bool),
    Next(u64, u64, bool),
    Beyond(u64),
    Published(u64),
    Refused(u64, EditRefusal),
    At(u64),
    NoListing,
}

fn told_by(reply: &Reply) -> Told {
    match reply {
        Reply::Listed {
            version,
            page,
            stats: Some(_),
            ..
        } => Told::First(*version, page.next, page.end),
        Reply::Listed { version, page, .. } => Told::Next(*version, page.next, page.end),
        Reply::Beyond { version, .. } => Told::Beyond(*version),
        Reply::Published { version } => Told::Published(*version),
        Reply::Refused { version, cause, .. } => Told::Refused(*version, *cause),
        Reply::At { version } => Told::At(*version),
        Reply::NoListing => Told::NoListing,
    }
}

pub(crate) fn expect<R: Abort>(rt: &R, replies: &[Reply], number: usize, want: Told) {
    assert!(rt;
        replies.get(number).map(told_by) == Some(want),
        "at {number}"
    );
}

fn expect_first<R: Abort>(rt: &R, replies: &[Reply]) {
    expect(rt, replies, 0, Told::At(0));
    expect(rt, replies, 1, Told::NoListing);
    expect(rt, replies, 2, Told::First(0, 6, false));
    expect(rt, replies, 3, Told::Published(1));
    expect(rt, replies, 4, Told::Next(0, 11, false));
    expect(rt, replies, 5, Told::At(1));
}

fn expect_second<R: Abort>(rt: &R, replies: &[Reply]) {
    expect(rt, replies, 6, Told::First(1, 7, true));
    expect(rt, replies, 7, Told::Refused(1, EditRefusal::NoSuchWord));
    expect(
        rt,
        replies,
        8,
        Told::Refused(1, EditRefusal::UnknownMacro(0)),
    );
    expect(rt, replies, 9, Told::Beyond(1));
    expect(rt, replies, 10, Told::NoListing);
    expect(rt, replies, 11, Told::Published(2));
    assert!(rt; replies.len() == 12);
}

#[test]
fn each_kind_of_answer_is_given(rt: HostRuntime) -> Result<(), Fail> {
    let outcome = run(&rt, rt.alloc())?;
    let lists = outcome.kept.as_slice();
    assert!(rt; lists.len() == 1);
    expect_first(&rt, lists[0].items());
    expect_second(&rt, lists[0].items());
    Ok(())
}

// The name that a refused edit tells.
fn name_of(reply: &Reply) -> &[u8] {
    match reply {
        Reply::Refused { name, .. } => name.bytes(),
        _ => b"",
    }
}

fn expect_name<R: Abort>(rt: &R, replies: &[Reply], number: usize, want: &[u8]) {
    assert!(rt; number < replies.len());
    assert!(rt; name_of(&replies[number]) == want);
}

#[test]
fn an_unknown_macro_is_named(rt: HostRuntime) -> Result<(), Fail> {
    let outcome = run(&rt, rt.alloc())?;
    let lists = outcome.kept.as_slice();
    assert!(rt; lists.len() == 1);
    expect_name(&rt, lists[0].items(), 7, b"");
    expect_name(&rt, lists[0].items(), 8, b"<n>");
    Ok(())
}

#[test]
fn the_journal_has_the_edits(rt: HostRuntime) -> Result<(), Fail> {
    let outcome = run(&rt, rt.alloc())?;
    let places = outcome.journal.items();
    let first = Place {
        session: 1,
        command: 4,
    };
    let second = Place {
        session: 1,
        command: 12,
    };
    assert!(rt; places == [first, second].as_slice());
    Ok(())
}
