ghost use Rattle.std.specs.Prelude.{◌≤◌, vec_len};

use crate::frame::{Frame, Outer};
use crate::part::Bracket;
use lg_base::NoMemory;
use std::alloc::Global;

/// The brackets that are open, the innermost last, and the greatest number that was open at once.
#[derive(Debug, Drop)]
pub(crate) struct Brackets {
    pub(crate) outer: Vec<Outer>,
    pub(crate) deepest: u32,
    ghost within: { vec_len outer ≤ deepest },
}

impl Brackets {
    ghost use Rattle.std.specs.Prelude.{◌≡◌, ◌∷◌, [], ◌<◌, ◌^◌, suc, max, length, IfOk};
    ghost use Rattle.lg_expr.specs.View.{outers, frame_of};

    /// None is open.
    pub(crate) fn new(alloc: Global) -> Brackets
        ensures none { outers result.outer.items ≡ [] }
        ensures deepest { result.deepest ≡ 0 }
    {
        Brackets {
            outer: Vec::new(alloc),
            deepest: 0,
        }
    }

    /// How many are open.
    pub(crate) fn depth(&self) -> u32
        ensures { result ≡ length (outers self.now.outer.items) }
    {
        let _at_most = self.deepest;
        self.outer.len() as u32
    }

    /// With one more, after what is read of the bracket round it.
    pub(crate) fn with(self, bracket: Bracket, frame: Frame) -> Result<Brackets, NoMemory>
        requires { suc (length (outers self.outer.items)) < 2 ^ 32 }
        ensures open { IfOk result (λ b. outers b.outer.items ≡ record { bracket = bracket; frame = frame_of frame } ∷ outers self.outer.items) }
        ensures deepest { IfOk result (λ b. b.deepest ≡ max self.deepest (suc (length (outers self.outer.items)))) }
    {
        let deepest = self.deepest.max(self.depth() + 1);
        let mut outer = self.outer;
        outer.push(Outer { bracket, frame })?;
        Ok(Brackets { outer, deepest })
    }
}
