//! Names of the connectors that tokens may use.

ghost use Rattle.std.specs.Prelude.{◌≡◌, Some};
ghost use Rattle.std.specs.FinMap.{get};
ghost use Rattle.lg_disj.specs.Exist.{HasNames};
ghost use Rattle.lg_gram.specs.Trees.{Tree};
ghost use Rattle.lg_audit.specs.Pages.{HasNamedWords, HaveNamedWords};

use lg_base::Text;
use lg_dict::View;
use lg_disj::see_names;
use lg_gram::Token;

/// The connectors of all words of the tokens have names that may be written. The function changes nothing: a caller whose proof needs the
/// fact calls it. Its time is that of a look at each node of their formulas.
pub(crate) fn see_tokens(view: &View, tokens: &[Token])
    ensures { HaveNamedWords view.now tokens.now }
{
    for token in tokens {
        see_words(view, token.words.items());
    }
}

fn see_words(view: &View, words: &[Text])
    ensures { HasNamedWords view.now words.now }
{
    for word in words {
        see_word(view, word.bytes());
    }
}

fn see_word(view: &View, word: &[u8])
    ensures { (t : Tree) → get view.now.words word.now ≡ Some t → HasNames t }
{
    if let Some(formula) = view.get(word) {
        see_names(formula);
    }
}
