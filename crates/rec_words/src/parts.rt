//! An entry as its words have it, before memory is taken for its lists.
use crate::shape::Shape;
use attrs::Src;
use bits_ip::{Addr, Prefix};

/// Numbers of 32 bits: two in each word, and the last alone where they are odd.
#[derive(Clone, Copy)]
pub(crate) struct Numbers<'a> {
    pub pairs: &'a [u64],
    pub last: Option<u32>,
}

/// What a route's first five words hold.
#[derive(Clone, Copy)]
pub(crate) struct Head {
    pub src: Src,
    pub pref: u32,
    pub shape: Shape,
    pub peer_id: u32,
    pub med: Option<u32>,
    pub lp: Option<u32>,
    pub igp: Option<u32>,
}

/// A route's addresses.
#[derive(Clone, Copy)]
pub(crate) struct Ways {
    pub gw: Option<Addr>,
    pub sender: Option<Addr>,
    pub next_hop: Option<Addr>,
}

#[derive(Clone, Copy)]
pub(crate) struct RouteParts<'a> {
    pub head: Head,
    pub ways: Ways,
    pub path: Numbers<'a>,
    pub coms: Numbers<'a>,
}

/// What an entry's first five words hold.
#[derive(Clone, Copy)]
pub(crate) struct Front {
    pub has_new: bool,
    pub has_best: bool,
    pub net: Prefix,
    pub num: u32,
}

#[derive(Clone, Copy)]
pub(crate) struct EntryParts<'a> {
    pub front: Front,
    pub new: Option<RouteParts<'a>>,
    pub best: Option<RouteParts<'a>>,
    /// The words say the same of both routes.
    pub is_new_best: bool,
}
