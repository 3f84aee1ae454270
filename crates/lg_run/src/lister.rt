//! What answers the sentences of a session.
ghost use Rattle.std.specs.Prelude.{◌≡◌, ◌<◌, ◌^◌, length, IfOk};
ghost use Rattle.lg_run.specs.Words.{HasCounts};
ghost use Rattle.lg_run.specs.Documents.{listings};
ghost use Rattle.lg_run.specs.Listers.{StandsFor, Turns, MayTurn};

use lg_answer::{AnswerRefusal, Listing, Options};
use lg_base::{NoMemory, Text, Texts};
use lg_dict::View;
use lg_gram::{Page, Token, Tokens};
use lg_knowread::Knowledge;
use lg_session::{Engine, Opening};
use std::alloc::Global;
use std::marker::Model;
use std::thread::Threads;

/// Lists sentences, and judges their candidates by the knowledge.
///
/// Contracts see `{ know, options }`.
#[derive(Drop)]
pub(crate) struct Lister<'a> {
    know: &'a Knowledge,
    options: Options,
}

impl<'a> Model for Lister<'a> {
    ghost use Rattle.lg_run.specs.Listers.{Lister as Seen, IsLister};

    ghost Value = { Seen };

    ghost view = { λ l. record { know = l.know.now; options = l.options } };

    ghost invariant = { λ l. IsLister (record { know = l.know.now; options = l.options }) };
}

/// A listing, and how many candidates that pass a page of it shows.
#[derive(Drop)]
pub struct Held {
    listing: Listing,
    want: u64,
}

impl<'a> Lister<'a> {
    /// Lists by this knowledge, and with these options. There are fewer than 2^32 rules.
    pub(crate) fn new(know: &'a Knowledge, options: Options) -> Lister<'a>
        requires few { length know.now.rules < 2 ^ 32 }
        requires range { HasCounts options }
        ensures { result ≡ record { know = know.entry.now; options = options } }
    {
        Lister { know, options }
    }

    // The next page of a listing, with its tokens, and the listing after it.
    fn page(&self, alloc: Global, held: Held) -> Result<(Held, Tokens, Page), NoMemory>
        requires { MayTurn self.now held }
        ensures { IfOk result (λ r. Turns self.now held r.0 r.1 r.2) }
    {
        let Held { listing, want } = held;
        let (listing, page) = listing.page(alloc, self.know, want, self.options.examine)?;
        let tokens = copied(alloc, listing.tokens())?;
        Ok((Held { listing, want }, tokens, page))
    }
}

impl<'a> Engine for Lister<'a> {
    type Held = Held;

    ghost meaning = { λ l. listings l.know l.options };

    ghost stands = { λ l held dict progress. StandsFor l held dict progress };

    fn begin<R: Threads + Sync>(
        &self,
        rt: &R,
        alloc: Global,
        view: &View,
        text: &Text,
        first: u64,
        want: Option<u64>,
    ) -> Result<Opening<Held>, NoMemory> {
        let Ok(sentence) = str::from_utf8(text.bytes()) else {
            unreachable!()
        };
        let start = match Listing::start(rt, alloc, view, sentence, &self.options) {
            Ok(start) => start,
            Err(AnswerRefusal::Beyond(bound)) => return Ok(Opening::Beyond(bound)),
            Err(AnswerRefusal::NoMemory) => return Err(NoMemory),
        };
        let listing = start.skip(alloc, self.know, first - 1)?;
        let want = want.unwrap_or(self.options.want);
        let stats = listing.stats();
        let (held, tokens, page) = self.page(alloc, Held { listing, want })?;
        Ok(Opening::Listed {
            held,
            tokens,
            page,
            stats,
        })
    }

    fn more(&self, alloc: Global, held: Held) -> Result<(Held, Tokens, Page), NoMemory> {
        self.page(alloc, held)
    }
}

// The same tokens.
fn copied(alloc: Global, tokens: &Tokens) -> Result<Tokens, NoMemory>
    ensures { IfOk result (λ copy. copy ≡ tokens.now) }
{
    let mut items = Vec::new(alloc);
    for token in tokens.items() {
        items.push(copied_token(alloc, token)?)?;
    }
    Ok(Tokens::of(items))
}

fn copied_token(alloc: Global, token: &Token) -> Result<Token, NoMemory>
    ensures { IfOk result (λ copy. copy ≡ token.now) }
{
    let mut words = Vec::new(alloc);
    for word in token.words.items() {
        words.push(Text::of(alloc, word.bytes())?)?;
    }
    Ok(Token {
        from: token.from,
        to: token.to,
        text: Text::of(alloc, token.text.bytes())?,
        words: Texts::of(words),
    })
}
