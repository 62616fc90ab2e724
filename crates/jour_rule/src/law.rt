//! What holds of the list of entries of a journal, beside the rule.
use crate::views::Entry;

/// A test on an opening and a list of entries. It holds of the empty list, and of every front of a
/// list of which it holds, so that what any seat has seen is lawful. The opening is data that is
/// picked when a journal is made and that every view holds.
pub trait Law<O> {
    ghost use Rattle.std.specs.Prelude.{List, [], ◌++◌};
    ghost use Rattle.jour_rule.specs.declared.views.Entry.{Entry};

    ghost meets: { O → List Entry → Type 0 };

    // Any opening, for views that are spent.
    ghost blank: { O };

    ghost empty_meets: { (o : O) → meets o [] };

    ghost front_meets: { (o : O) (xs ys : List Entry) → meets o (xs ++ ys) → meets o xs };
}

/// The law of a journal that is no table's: its opening is how many makers it has, and each entry
/// is of one of them.
pub struct OfMakers;

impl Law<u64> for OfMakers {
    ghost use Rattle.jour_rule.specs.Laws.{AreOfMakers, are_of_makers_in_front};

    ghost meets = { AreOfMakers };

    ghost blank = { 0 };

    ghost empty_meets = { λ o. tt };

    ghost front_meets = { are_of_makers_in_front };
}
