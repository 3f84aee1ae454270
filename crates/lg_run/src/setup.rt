//! How sentences are listed, and what is printed of them.
ghost use Rattle.std.specs.Prelude.{◌≡◌};

use lg_answer::Options;
use lg_text::Look;

/// How sentences are listed, and what is printed beside their linkages.
#[derive(Clone, Copy, Debug, PartialEq, Eq)]
pub struct Setup {
    pub listing: Options,
    pub look: Look,
    /// Whether the first linkages are counted by words and labels; `run` alone does so.
    pub usage: bool,
}

impl Default for Setup {
    ghost use Rattle.lg_run.specs.Words.{default_setup};

    ghost is_default = { λ setup. setup ≡ default_setup };

    fn default() -> Self {
        Setup {
            listing: Options::default(),
            look: Look {
                diagram: false,
                stats: false,
            },
            usage: false,
        }
    }
}
