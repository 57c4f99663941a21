//! A number that only proofs read. It takes no memory, so it has no greatest value.

ghost use Rattle.std.specs.Prelude.{◌≡◌, ℕ, ◌+◌};
ghost use Rattle.std.specs.Borrow.{ftrue};

use std::marker::{Model, PhantomData};

/// How often something was done. A clause reads it as `number`.
#[derive(Drop)]
pub struct Times {
    of: PhantomData<()>,
    pub ghost number: { ℕ },
}

impl Model for Times {
    ghost also_owns = { λ _. ftrue };
}

impl Times {
    /// Not once.
    pub fn never() -> Times
        ensures { result.number ≡ 0 }
    {
        Times { of: PhantomData }
    }

    /// Once more than so often.
    pub fn once_more(&self) -> Times
        ensures { result.number ≡ self.now.number + 1 }
    {
        Times { of: PhantomData }
    }
}
