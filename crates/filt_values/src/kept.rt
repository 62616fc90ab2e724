//! Which members of a list `delete` and `filter` keep. They keep their order, and no memory is
//! taken.

ghost use Rattle.std.specs.Prelude.{◌≡◌, ◌==◌, not};
ghost use Rattle.std.specs.List.{filter};
ghost use Rattle.attrs.specs.Clist.{has_pair, same_pair};
ghost use Rattle.filt_meaning.specs.Members.{in_ints, in_pairs};

use crate::members::{has_pair, in_ints, in_pairs};
use crate::same::same_pair;
use attrs::{Clist, Path};
use filt_sets::{IntSet, PairSet};

pub(crate) fn other_numbers(path: Path, number: u32) -> Path
    ensures { result ≡ filter (λ m. not (m == number)) path }
{
    // Asked for what the call ensures: the path is short.
    let _numbers = path.as_slice();
    let mut numbers = path.into_vec();
    numbers.retain(|m| *m != number);
    Path::from_vec(numbers)
}

pub(crate) fn numbers_not_in_set(path: Path, set: &IntSet) -> Path
    ensures { result ≡ filter (λ m. not (in_ints set.now m)) path }
{
    // As above.
    let _numbers = path.as_slice();
    let mut numbers = path.into_vec();
    numbers.retain(|m| !in_ints(set, *m));
    Path::from_vec(numbers)
}

pub(crate) fn numbers_in_set(path: Path, set: &IntSet) -> Path
    ensures { result ≡ filter (λ m. in_ints set.now m) path }
{
    // As above.
    let _numbers = path.as_slice();
    let mut numbers = path.into_vec();
    numbers.retain(|m| in_ints(set, *m));
    Path::from_vec(numbers)
}

pub(crate) fn other_pairs(list: Clist, first: u16, second: u16) -> Clist
    ensures { result ≡ filter (λ q. not (same_pair q (first, second))) list }
{
    let mut pairs = list.into_vec();
    pairs.retain(|q| !same_pair(*q, (first, second)));
    Clist::from_vec(pairs)
}

pub(crate) fn pairs_not_in_set(list: Clist, set: &PairSet) -> Clist
    ensures { result ≡ filter (λ q. not (in_pairs set.now q)) list }
{
    let mut pairs = list.into_vec();
    pairs.retain(|q| !in_pairs(set, q.0, q.1));
    Clist::from_vec(pairs)
}

pub(crate) fn pairs_in_set(list: Clist, set: &PairSet) -> Clist
    ensures { result ≡ filter (λ q. in_pairs set.now q) list }
{
    let mut pairs = list.into_vec();
    pairs.retain(|q| in_pairs(set, q.0, q.1));
    Clist::from_vec(pairs)
}

pub(crate) fn pairs_not_in_list(list: Clist, others: &Clist) -> Clist
    ensures { result ≡ filter (λ q. not (has_pair others.now q)) list }
{
    let mut pairs = list.into_vec();
    pairs.retain(|q| !has_pair(others, q.0, q.1));
    Clist::from_vec(pairs)
}

pub(crate) fn pairs_in_list(list: Clist, others: &Clist) -> Clist
    ensures { result ≡ filter (λ q. has_pair others.now q) list }
{
    let mut pairs = list.into_vec();
    pairs.retain(|q| has_pair(others, q.0, q.1));
    Clist::from_vec(pairs)
}
