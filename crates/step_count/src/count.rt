//! The number of steps that a function has taken, for its contract.

ghost use Rattle.std.specs.Prelude.{◌≡◌, ℕ, ◌+◌};
ghost use Rattle.std.specs.Borrow.{ftrue};

use std::marker::Model;

/// A number of steps (ours). A clause reads it as `number`: a natural number without a limit.
///
/// What a step is says the function that counts. After `let mut steps = Count::zero()` and
/// `steps.tick()` it is 1.
#[derive(Drop)]
pub struct Count {
    pub ghost number: { ℕ },
}

impl Model for Count {
    ghost also_owns = { λ _. ftrue };
}

impl Count {
    /// Returns the count zero.
    pub fn zero() -> Count
        ensures { result.number ≡ 0 }
    {
        Count {}
    }

    /// Returns the count plus one.
    #[inline(always)]
    fn next(&self) -> Count
        ensures { result.number ≡ self.now.number + 1 }
    {
        Count {}
    }

    /// Counts one step.
    ///
    /// `steps.tick()` changes nothing at run time.
    #[inline(always)]
    pub fn tick(&mut self)
        ensures { self.new.number ≡ self.old.number + 1 }
    {
        *self = self.next();
    }
}
