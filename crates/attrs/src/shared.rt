ghost use Rattle.std.specs.Prelude.{◌≡◌, IfOk};

use bits_ip::OutOfMemory;
use std::alloc::Global;
use std::marker::Model;
use std::ops::Deref;
use std::sync::Arc;

/// A value with several owners, which nobody changes: contracts see it as the value.
///
/// A route's attributes stand in what was received, in a table, in its journal and in what channels
/// sent; all of these own one value.
#[derive(Debug, Drop)]
pub struct Shared<T> {
    owner: Arc<T, Global>,
}

impl<T> Model for Shared<T> {
    ghost Value = { T };

    ghost view = { λ shared. shared.owner.value };
}

impl<T> Shared<T> {
    /// A value with one owner.
    pub fn new(alloc: Global, value: T) -> Result<Shared<T>, OutOfMemory>
    where
        T: Drop,
        ensures { IfOk result (λ shared. shared ≡ value) }
    {
        let owner = Arc::new(alloc, value)?;
        Ok(Shared { owner })
    }
}

impl<T: Drop> Shared<T> {
    /// One more owner. Takes no memory; it's refused where the value has 2^63 owners.
    pub fn share(&self) -> Result<Shared<T>, OutOfMemory>
        ensures { IfOk result (λ shared. shared ≡ self.now) }
    {
        let owner = Arc::try_clone(&self.owner)?;
        Ok(Shared { owner })
    }
}

impl<T> Deref for Shared<T> {
    type Target = T;

    ghost deref_gives = { λ shared x. x ≡ shared };

    fn deref(&self) -> &T
        ensures { result.now ≡ self.now }
    {
        &self.owner
    }
}

impl<T: PartialEq> PartialEq for Shared<T> {
    ghost eq = { T.eq };

    ghost laws = { T.laws };

    fn eq(&self, other: &Shared<T>) -> bool {
        **self == **other
    }
}

impl<T: Eq> Eq for Shared<T> {
    ghost laws = { T.Eq.laws };
}
