//! The rule in the form in which the table of words takes it.
ghost use Rattle.jour_rule.specs.Journal.{IsJournal, opened};

use crate::law::Law;
use crate::views::{Terms, View};
use atomic_table::TableRule;
use std::marker::PhantomData;

/// The rule of a journal with this law.
pub struct Kept<L> {
    law: PhantomData<L>,
}

impl<O, L: Law<O>> TableRule<(), View<O>, Terms<O>> for Kept<L> {
    ghost holds = { λ key s. IsJournal L.meets key s };

    ghost first = { opened };
}
