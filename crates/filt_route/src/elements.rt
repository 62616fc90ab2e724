//! Elements of paths and lists of communities.

ghost use Rattle.std.specs.Prelude.{◌≡◌, ◌<◌, ◌≤◌, get_or, length, map, Ok};
ghost use Rattle.filt_meaning.specs.Meaning.{elements};
ghost use Rattle.filt_meaning.specs.Seen.{val_of};
ghost use Rattle.filt_meaning.specs.Values.{VInt, VPair};
ghost use Rattle.filt_route.specs.Seen.{elements_of, IsApplicable};

use attrs::{Clist, Path};
use filt_meaning::Value;

/// What a loop goes over. Contracts see its elements (`elements_of`).
#[derive(Drop)]
pub enum Elements<'a> {
    Path(Path),
    /// Those of a path that stands elsewhere.
    PathOf(&'a Path),
    Clist(Clist),
    /// Those of a list of communities that stands elsewhere.
    ClistOf(&'a Clist),
}

impl<'a> Elements<'a> {
    /// The elements of a path or a list of communities.
    pub fn of(list: Value<'a>) -> Elements<'a>
        requires { IsApplicable (elements (val_of list)) }
        ensures elements { elements (val_of list.entry) ≡ Ok (elements_of result) }
        ensures few { length (elements_of result) ≤ 120 }
    {
        let elements = held(list);
        // Asked for what the call ensures: there are few.
        let _few = elements.len();
        elements
    }

    pub fn len(&self) -> usize
        ensures counted { result ≡ length (elements_of self.now) }
        ensures few { result ≤ 120 }
    {
        match self {
            Elements::Path(path) => path.as_slice().len(),
            Elements::PathOf(path) => path.as_slice().len(),
            Elements::Clist(list) => list.as_slice().len(),
            Elements::ClistOf(list) => list.as_slice().len(),
        }
    }

    /// An element by its place.
    pub fn get(&self, n: usize) -> Value<'a>
        requires { n < length (elements_of self.now) }
        ensures { val_of result ≡ get_or (elements_of self.now) n (VInt 0) }
    {
        match self {
            Elements::Path(path) => number(path.as_slice(), n),
            Elements::PathOf(path) => number(path.as_slice(), n),
            Elements::Clist(list) => pair(list.as_slice(), n),
            Elements::ClistOf(list) => pair(list.as_slice(), n),
        }
    }
}

fn held(list: Value<'_>) -> Elements<'_>
    requires { IsApplicable (elements (val_of list)) }
    ensures { elements (val_of list.entry) ≡ Ok (elements_of result) }
{
    match list {
        Value::Path(path) => Elements::Path(path),
        Value::PathOf(path) => Elements::PathOf(path),
        Value::Clist(list) => Elements::Clist(list),
        Value::ClistOf(list) => Elements::ClistOf(list),
        _ => unreachable!(),
    }
}

fn number<'a>(numbers: &[u32], n: usize) -> Value<'a>
    requires { n < length numbers.now }
    ensures { val_of result ≡ get_or (map VInt numbers.now) n (VInt 0) }
{
    Value::Int(numbers[n])
}

fn pair<'a>(pairs: &[(u16, u16)], n: usize) -> Value<'a>
    requires { n < length pairs.now }
    ensures { val_of result ≡ get_or (map VPair pairs.now) n (VInt 0) }
{
    let (first, second) = pairs[n];
    Value::Pair(first, second)
}
