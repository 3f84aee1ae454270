//! The counter of the promises on steps.
ghost use Rattle.std.specs.Prelude.{◌≡◌, ◌+◌, ◌<◌, ◌^◌};

use std::marker::{Model, PhantomData};

/// The layer of a counter that a caller makes for itself.
pub struct Own;

/// A count of the steps that a promise speaks of. Contracts see a number.
///
/// A call that counts its steps takes `&mut Steps<L>` last and is generic in `L`, so that it cannot make the counter that
/// its caller reads: only `Steps<Own>` has a constructor.
#[derive(Drop)]
pub struct Steps<L> {
    count: u128,
    layer: PhantomData<L>,
}

impl<L> Model for Steps<L> {
    ghost use Rattle.std.specs.Prelude.{ℕ};

    ghost Value = { ℕ };

    ghost view = { λ s. s.count };
}

impl Steps<Own> {
    /// A counter at 0.
    pub fn start() -> Steps<Own>
        ensures { result ≡ 0 }
    {
        Steps {
            count: 0,
            layer: PhantomData,
        }
    }
}

impl<L> Steps<L> {
    /// Counts one step.
    pub fn tick(&mut self)
        requires { self.old < 2 ^ 127 }
        ensures { self.new ≡ self.old + 1 }
    {
        self.count += 1;
    }

    /// How many steps were counted.
    pub fn count(&self) -> u128
        ensures { result ≡ self.now }
    {
        self.count
    }
}
