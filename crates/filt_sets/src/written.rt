//! What a set was made of, where the set itself holds it in another order: a value that clauses and
//! invariants read, and no code.
ghost use Rattle.std.specs.Prelude.{◌≡◌};
ghost use Rattle.std.specs.Borrow.{ftrue};

use std::fmt::{self, Debug, Formatter, Write};
use std::marker::{Model, PhantomData};

/// A value as it once was, for proofs alone. It has no bytes.
#[derive(Drop)]
pub(crate) struct Written<T> {
    of: PhantomData<T>,
    pub ghost value: { T },
}

impl<T> Model for Written<T> {
    ghost also_owns = { λ _. ftrue };
}

// It owns nothing.
unsafe impl<T> Send for Written<T> {}

unsafe impl<T> Sync for Written<T> {}

impl<T> Written<T> {
    pub(crate) fn of(_value: &T) -> Written<T>
        ensures { result.value ≡ _value.now }
    {
        Written { of: PhantomData }
    }

    /// The same value once more.
    pub(crate) fn again(&self) -> Written<T>
        ensures { result.value ≡ self.now.value }
    {
        Written { of: PhantomData }
    }
}

impl<T> Debug for Written<T> {
    fn fmt<W: Write>(&self, f: &mut Formatter<W>) -> fmt::Result {
        f.write_str("Written")
    }
}
