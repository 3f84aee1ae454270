//! Laws of the definitions.
ghost use Rattle.std.specs.Prelude.{◌≡◌, ℕ, List};
ghost use Rattle.lg_gram.specs.declared.listing.Token.{Token};
ghost use Rattle.lg_dict.specs.Dictionary.{Dictionary};
ghost use Rattle.lg_token.specs.Spans.{LieInOrder};
ghost use Rattle.lg_token.specs.Tokens.{AreTokens};

use lg_lex::runs_are_one_list;

/// For each dictionary and text there is exactly one list of tokens.
pub fn tokens_are_one_list()
    ensures some { (dict : Dictionary) (text : List ℕ) → (tokens : List Token) × AreTokens dict text tokens }
    ensures one { (dict : Dictionary) (text : List ℕ) (tokens others : List Token) → AreTokens dict text tokens → AreTokens dict text others → tokens ≡ others }
{
    runs_are_one_list();
}

/// The tokens of a text lie in it, one after another.
pub fn tokens_lie_in_order()
    ensures { (dict : Dictionary) (text : List ℕ) (tokens : List Token) → AreTokens dict text tokens → LieInOrder text tokens }
{}
