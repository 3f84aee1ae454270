ghost use Rattle.std.specs.Prelude.{◌≡◌, [], ◌∷◌, List, length, IfOk, pos};
ghost use Rattle.lg_gram.specs.declared.listing.Token.{Token as SeenToken};
ghost use Rattle.lg_gram.specs.Linkages.{IsLinkage};
ghost use Rattle.lg_text.specs.Texts.{IsPrintable};
ghost use Rattle.lg_text.specs.Replies.{IsAnswerTo, IsPrintableReply};

use lg_base::{Cost, Text, Texts};
use lg_gram::{
    Bound, Chosen, CommandKind, Connector, Connectors, Disjunct, EditRefusal, Link, Linkage, Links,
    Page, PageItem, PageItems, Place, Reply, Stats, Token, Tokens, Violation, Word, matches,
};
use lg_text::{Look, bound_text, journal_text, linkage_text, listing_text, page_text, reply_text};
use std::alloc::Global;
use std::process::Abort;
use std::test::Fail;

// Four words, each as it is written.
fn tokens(alloc: Global, words: [&[u8]; 4]) -> Result<Tokens, Fail>
    ensures { IfOk result (λ tokens. length tokens ≡ 4) }
{
    let [first, second, third, fourth] = words;
    let mut items = Vec::new(alloc);
    items.push(token(alloc, first)?)?;
    items.push(token(alloc, second)?)?;
    items.push(token(alloc, third)?)?;
    items.push(token(alloc, fourth)?)?;
    Ok(Tokens::of(items))
}

fn token(alloc: Global, word: &[u8]) -> Result<Token, Fail> {
    let text = Text::of(alloc, word)?;
    let words = Texts::of(Vec::new(alloc));
    Ok(Token {
        from: 0,
        to: 0,
        text,
        words,
    })
}

fn side(alloc: Global, one: Connector) -> Result<Connectors, Fail>
    ensures { IfOk result (λ side. side ≡ one ∷ []) }
{
    let mut items = Vec::new(alloc);
    items.push(one)?;
    let side = Connectors::of(alloc, items)?;
    Ok(side)
}

fn pair(alloc: Global, near: Connector, far: Connector) -> Result<Connectors, Fail>
    ensures { IfOk result (λ side. side ≡ near ∷ far ∷ []) }
{
    let mut items = Vec::new(alloc);
    items.push(near)?;
    items.push(far)?;
    let side = Connectors::of(alloc, items)?;
    Ok(side)
}

// What a position uses.
fn word(
    alloc: Global,
    text: &[u8],
    left: Connectors,
    right: Connectors,
    cost: Cost,
) -> Result<Option<Disjunct>, Fail>
    ensures { IfOk result (λ word. word ≡ Some (record { word = text.now; left = left; right = right; cost = cost })) }
{
    let word = Word::of(alloc, text)?;
    Ok(Some(Disjunct {
        word,
        left,
        right,
        cost,
    }))
}

// A word with one connector, to the left.
fn dependent(alloc: Global, text: &[u8], one: Connector) -> Result<Option<Disjunct>, Fail>
    ensures { IfOk result (λ word. word ≡ Some (record { word = text.now; left = one ∷ []; right = []; cost = pos 0 })) }
{
    let left = side(alloc, one)?;
    let right = Connectors::of(alloc, Vec::new(alloc))?;
    let word = word(alloc, text, left, right, Cost::of(0))?;
    Ok(word)
}

// A word with two connectors to the right.
fn head(
    alloc: Global,
    text: &[u8],
    near: Connector,
    far: Connector,
    cost: Cost,
) -> Result<Option<Disjunct>, Fail>
    ensures { IfOk result (λ word. word ≡ Some (record { word = text.now; left = []; right = near ∷ far ∷ []; cost = cost })) }
{
    let left = Connectors::of(alloc, Vec::new(alloc))?;
    let right = pair(alloc, near, far)?;
    let word = word(alloc, text, left, right, cost)?;
    Ok(word)
}

fn chosen(
    alloc: Global,
    first: Option<Disjunct>,
    second: Option<Disjunct>,
    third: Option<Disjunct>,
) -> Result<Vec<Option<Disjunct>>, Fail>
    ensures { IfOk result (λ chosen. chosen.items ≡ first ∷ second ∷ third ∷ None ∷ []) }
{
    let mut items = Vec::new(alloc);
    items.push(first)?;
    items.push(second)?;
    items.push(third)?;
    items.push(None)?;
    Ok(items)
}

// The first position is linked to the next two.
fn links(alloc: Global) -> Result<Vec<Link>, Fail>
    ensures { IfOk result (λ links. links.items ≡
        record { left = 0; lplace = 0; right = 1; rplace = 0 } ∷ record { left = 0; lplace = 1; right = 2; rplace = 0 } ∷ []) }
{
    let mut items = Vec::new(alloc);
    items.push(Link {
        left: 0,
        lplace: 0,
        right: 1,
        rplace: 0,
    })?;
    items.push(Link {
        left: 0,
        lplace: 1,
        right: 2,
        rplace: 0,
    })?;
    Ok(items)
}

fn linkage(chosen: Vec<Option<Disjunct>>, links: Vec<Link>) -> Result<Linkage, Fail>
    ensures value { IfOk result (λ g. g ≡ record { chosen = chosen.items; links = links.items }) }
    ensures limits { IfOk result IsLinkage }
{
    let linkage = Linkage::of(Chosen::of(chosen), Links::of(links)).ok_or("a linkage")?;
    Ok(linkage)
}

// The first word is linked to the next two, and the fourth is unlinked.
fn fork(
    rt: &impl Abort,
    alloc: Global,
    near: (Connector, Connector),
    far: (Connector, Connector),
    cost: Cost,
) -> Result<Linkage, Fail>
    ensures { IfOk result (λ g. (tokens : List SeenToken) → length tokens ≡ 4 → IsPrintable tokens g) }
{
    assert!(rt; matches(&near.0, &near.1));
    assert!(rt; matches(&far.0, &far.1));
    let first = head(alloc, b"x", near.0, far.0, cost)?;
    let second = dependent(alloc, b"y", near.1)?;
    let third = dependent(alloc, b"z", far.1)?;
    let chosen = chosen(alloc, first, second, third)?;
    let links = links(alloc)?;
    let linkage = linkage(chosen, links)?;
    Ok(linkage)
}

fn connector(caps: &[u8], subs: &[u8], multi: bool, right: bool) -> Result<Connector, Fail> {
    let connector = Connector::of(caps, subs, multi, right).ok_or("a connector")?;
    Ok(connector)
}

// x has the connectors S**b and @B to the right.
fn stars(rt: &impl Abort, alloc: Global) -> Result<Linkage, Fail>
    ensures { IfOk result (λ g. (tokens : List SeenToken) → length tokens ≡ 4 → IsPrintable tokens g) }
{
    let near = (
        connector(b"S", b"**b", false, true)?,
        connector(b"S", b"s", false, false)?,
    );
    let far = (
        connector(b"B", b"", true, true)?,
        connector(b"B", b"", false, false)?,
    );
    let linkage = fork(rt, alloc, near, far, Cost::of(1250))?;
    Ok(linkage)
}

// x has the connectors C and B to the right.
fn plain(rt: &impl Abort, alloc: Global) -> Result<Linkage, Fail>
    ensures { IfOk result (λ g. (tokens : List SeenToken) → length tokens ≡ 4 → IsPrintable tokens g) }
{
    let near = (
        connector(b"C", b"", false, true)?,
        connector(b"C", b"", false, false)?,
    );
    let far = (
        connector(b"B", b"", false, true)?,
        connector(b"B", b"", false, false)?,
    );
    let linkage = fork(rt, alloc, near, far, Cost::of(-250))?;
    Ok(linkage)
}

// Nothing beside linkages.
const BARE: Look = Look {
    diagram: false,
    stats: false,
};

const STARS: &str = "linkage 1 unused 1 cost 1.250 length 3
word 0 x x - S**b,@B 1.250
word 1 y y Ss - 0.000
word 2 z z B - 0.000
word 3 w null
link 0 1 Ss*b 0 0
link 0 2 B 1 0
";

#[test]
fn a_linkage_is_printed(rt: HostRuntime) -> Result<(), Fail> {
    let alloc = rt.alloc();
    let tokens = tokens(alloc, [b"x", b"y", b"z", b"w"])?;
    let linkage = stars(&rt, alloc)?;
    let text = linkage_text(alloc, &tokens, 1, &linkage)?;
    assert_eq!(rt; text.as_slice(), STARS.as_bytes());
    Ok(())
}

fn three(alloc: Global, one: PageItem, two: PageItem, three: PageItem) -> Result<PageItems, Fail>
    ensures { IfOk result (λ items. items ≡ one ∷ two ∷ three ∷ []) }
{
    let mut items = Vec::new(alloc);
    items.push(one)?;
    items.push(two)?;
    items.push(three)?;
    Ok(PageItems::of(items))
}

const PAGE: &str = "linkage 1 unused 1 cost 1.250 length 3
word 0 x x - S**b,@B 1.250
word 1 y y Ss - 0.000
word 2 z z B - 0.000
word 3 w null
link 0 1 Ss*b 0 0
link 0 2 B 1 0
fail 2 rule 1 link 0 1
linkage 3 unused 1 cost -0.250 length 3
word 0 x x - C,B -0.250
word 1 y y C - 0.000
word 2 z z B - 0.000
word 3 w null
link 0 1 C 0 0
link 0 2 B 1 0
page shown 2 examined 3 next 4 more
";

#[test]
fn a_page_is_printed(rt: HostRuntime) -> Result<(), Fail> {
    let alloc = rt.alloc();
    let tokens = tokens(alloc, [b"x", b"y", b"z", b"w"])?;
    let shown = PageItem {
        number: 1,
        linkage: stars(&rt, alloc)?,
        broken: None,
    };
    let violation = Violation {
        rule: 1,
        left: 0,
        right: 1,
    };
    let broken = PageItem {
        number: 2,
        linkage: plain(&rt, alloc)?,
        broken: Some(violation),
    };
    let last = PageItem {
        number: 3,
        linkage: plain(&rt, alloc)?,
        broken: None,
    };
    let page = Page {
        items: three(alloc, shown, broken, last)?,
        next: 4,
        end: false,
    };
    let text = page_text(alloc, &tokens, &page, BARE)?;
    assert_eq!(rt; text.as_slice(), PAGE.as_bytes());
    Ok(())
}

#[test]
fn numbers_stand_before_a_page(rt: HostRuntime) -> Result<(), Fail> {
    let alloc = rt.alloc();
    let tokens = tokens(alloc, [b"w", b"z", b"z", b"z"])?;
    let page = Page {
        items: PageItems::of(Vec::new(alloc)),
        next: 1,
        end: true,
    };
    let stats = Stats {
        disjuncts: 7,
        kept: 5,
    };
    let look = Look {
        diagram: true,
        stats: true,
    };
    let text = listing_text(alloc, &tokens, &page, Some(stats), look)?;
    assert_eq!(rt;
        text.as_slice(),
        b"stats disjuncts 7 kept 5\npage shown 0 examined 0 next 1 end\n".as_slice()
    );
    let text = listing_text(alloc, &tokens, &page, Some(stats), BARE)?;
    assert_eq!(rt;
        text.as_slice(),
        b"page shown 0 examined 0 next 1 end\n".as_slice()
    );
    Ok(())
}

#[test]
fn an_empty_page_is_its_last_line(rt: HostRuntime) -> Result<(), Fail> {
    let alloc = rt.alloc();
    let tokens = tokens(alloc, [b"w", b"z", b"z", b"z"])?;
    let page = Page {
        items: PageItems::of(Vec::new(alloc)),
        next: 3,
        end: true,
    };
    let text = page_text(alloc, &tokens, &page, BARE)?;
    assert_eq!(rt;
        text.as_slice(),
        b"page shown 0 examined 0 next 3 end\n".as_slice()
    );
    Ok(())
}

#[test]
fn a_bound_is_named(rt: HostRuntime) -> Result<(), Fail> {
    let table = [
        (Bound::TooManyWords(123), "too many words 123\n"),
        (Bound::TooWide(5_000_000), "too many choices 5000000\n"),
    ];
    for (bound, line) in table {
        let text = bound_text(rt.alloc(), bound)?;
        assert_eq!(rt; text.as_slice(), line.as_bytes());
    }
    Ok(())
}

// Wants this text of the answer to the second command of the first session.
fn expect_answer<R: Abort>(
    rt: &R,
    alloc: Global,
    kind: CommandKind,
    reply: Reply,
    want: &str,
) -> Result<(), Fail>
    requires kind { IsAnswerTo kind reply }
    requires printable { IsPrintableReply reply }
{
    let place = Place {
        session: 1,
        command: 2,
    };
    let text = reply_text(alloc, place, kind, &reply, BARE)?;
    assert_eq!(rt; text.as_slice(), want.as_bytes());
    Ok(())
}

#[test]
fn versions_are_printed(rt: HostRuntime) -> Result<(), Fail> {
    let alloc = rt.alloc();
    let published = Reply::Published { version: 3 };
    expect_answer(
        &rt,
        alloc,
        CommandKind::Set,
        published,
        "1.2 set version 3\n",
    )?;
    let at = Reply::At { version: 0 };
    expect_answer(&rt, alloc, CommandKind::Version, at, "1.2 version 0\n")?;
    let none = Reply::NoListing;
    expect_answer(
        &rt,
        alloc,
        CommandKind::More,
        none,
        "1.2 more nothing held\n",
    )
}

#[test]
fn an_answer_past_a_bound_is_printed(rt: HostRuntime) -> Result<(), Fail> {
    let beyond = Reply::Beyond {
        version: 0,
        bound: Bound::TooManyWords(123),
    };
    let line = "1.2 parse version 0 too many words 123\n";
    expect_answer(&rt, rt.alloc(), CommandKind::Parse, beyond, line)
}

// Wants this line of an edit that is refused at version 4.
fn expect_refusal<R: Abort>(
    rt: &R,
    alloc: Global,
    cause: EditRefusal,
    name: &[u8],
    want: &str,
) -> Result<(), Fail> {
    let refused = Reply::Refused {
        version: 4,
        cause,
        name: Text::of(alloc, name)?,
    };
    expect_answer(rt, alloc, CommandKind::Macro, refused, want)
}

#[test]
fn refusals_are_printed(rt: HostRuntime) -> Result<(), Fail> {
    let table = [
        (
            EditRefusal::UnknownMacro(2),
            "1.2 macro refused at 4: unknown macro <none>\n",
        ),
        (
            EditRefusal::TooDeep(201),
            "1.2 macro refused at 4: too deep 201\n",
        ),
        (
            EditRefusal::TooManyNodes(1_000_001),
            "1.2 macro refused at 4: too many nodes 1000001\n",
        ),
        (
            EditRefusal::TooManyChoices(1_000_001),
            "1.2 macro refused at 4: too many choices 1000001\n",
        ),
        (
            EditRefusal::SideTooLong(256),
            "1.2 macro refused at 4: too many connectors on a side 256\n",
        ),
        (
            EditRefusal::NoSuchWord,
            "1.2 macro refused at 4: no such word\n",
        ),
    ];
    for (cause, line) in table {
        expect_refusal(&rt, rt.alloc(), cause, b"<none>", line)?;
    }
    Ok(())
}

#[test]
fn a_listing_is_printed_behind_its_version(rt: HostRuntime) -> Result<(), Fail> {
    let alloc = rt.alloc();
    let listed = Reply::Listed {
        version: 7,
        tokens: Tokens::of(Vec::new(alloc)),
        page: Page {
            items: PageItems::of(Vec::new(alloc)),
            next: 1,
            end: true,
        },
        stats: None,
    };
    let text = "1.2 more version 7\npage shown 0 examined 0 next 1 end\n";
    expect_answer(&rt, alloc, CommandKind::More, listed, text)
}

#[test]
fn the_journal_is_printed(rt: HostRuntime) -> Result<(), Fail> {
    let first = Place {
        session: 1,
        command: 2,
    };
    let second = Place {
        session: 20,
        command: 1,
    };
    let text = journal_text(rt.alloc(), &[first, second])?;
    let lines = b"journal 2\nedit 1 1.2\nedit 2 20.1\ndone\n";
    assert_eq!(rt; text.as_slice(), lines.as_slice());
    let text = journal_text(rt.alloc(), &[])?;
    assert_eq!(rt; text.as_slice(), b"journal 0\ndone\n".as_slice());
    Ok(())
}
