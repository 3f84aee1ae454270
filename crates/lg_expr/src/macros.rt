ghost use Rattle.std.specs.Prelude.{◌≡◌, ℕ, List};
ghost use Rattle.lg_expr.specs.declared.macros.Known.{Known};

/// What is known of a macro where an expression names it.
#[derive(Clone, Copy, Debug, PartialEq, Eq)]
pub enum Known {
    /// Nothing defines it.
    Unknown,
    /// It may stand at every depth, as in an edit, which is tested when it is accepted.
    Free,
    /// Its expression has so many brackets open at once. It counts as one more bracket round them.
    Leveled(u32),
}

/// The macros that an expression may name.
pub trait Macros {
    /// What is known of each name.
    ghost known: { Self → List ℕ → Known };

    /// What is known of a macro, by its name with its angle brackets.
    fn known(&self, name: &[u8]) -> Known
        ensures { result ≡ known self.now name.now };
}
