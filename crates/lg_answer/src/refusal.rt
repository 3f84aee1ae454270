//! Why a sentence is not listed.
use lg_base::NoMemory;
use lg_gram::Bound;
use thiserror::Error;

/// A sentence is not listed since memory ran out, or since it is beyond a bound.
#[derive(Clone, Copy, Debug, PartialEq, Eq, Error)]
pub enum AnswerRefusal {
    #[error("out of memory")]
    NoMemory,
    #[error("the sentence is beyond a bound")]
    Beyond(Bound),
}

impl From<NoMemory> for AnswerRefusal {
    ghost use Rattle.std.specs.Prelude.{◌≡◌};
    ghost use Rattle.lg_answer.specs.declared.refusal.AnswerRefusal.TheVariants.{NoMemory as OutOfMemory};

    ghost from_gives = { λ _ refusal. refusal ≡ OutOfMemory };

    fn from(_error: NoMemory) -> AnswerRefusal {
        AnswerRefusal::NoMemory
    }
}
