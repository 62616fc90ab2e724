//! Words of the filter language that are values, and the names of sorts.
use attrs::{Dest, FilterFault, Kind, Origin};
use filt_meaning::Sort;

/// A value that is a word.
#[derive(Clone, Copy, PartialEq, Eq)]
pub enum Word {
    Bool(bool),
    EmptyPath,
    EmptyClist,
    Source(Kind),
    Dest(Dest),
    Origin(Origin),
}

const WORDS: [(&str, Word); 13] = [
    ("true", Word::Bool(true)),
    ("false", Word::Bool(false)),
    ("+empty+", Word::EmptyPath),
    ("-empty-", Word::EmptyClist),
    ("RTS_STATIC", Word::Source(Kind::Static)),
    ("RTS_BGP", Word::Source(Kind::Bgp)),
    ("RTD_UNICAST", Word::Dest(Dest::Unicast)),
    ("RTD_BLACKHOLE", Word::Dest(Dest::Blackhole)),
    ("RTD_UNREACHABLE", Word::Dest(Dest::Unreachable)),
    ("RTD_PROHIBIT", Word::Dest(Dest::Prohibit)),
    ("ORIGIN_IGP", Word::Origin(Origin::Igp)),
    ("ORIGIN_EGP", Word::Origin(Origin::Egp)),
    ("ORIGIN_INCOMPLETE", Word::Origin(Origin::Incomplete)),
];

pub fn word_of(text: &str) -> Option<Word> {
    for (name, word) in WORDS {
        if name == text {
            return Some(word);
        }
    }
    None
}

pub fn text_of(word: Word) -> &'static str {
    for (name, other) in WORDS {
        if other == word {
            return name;
        }
    }
    "no word"
}

const SORTS: [(&str, Sort); 15] = [
    ("int", Sort::Int),
    ("bool", Sort::Bool),
    ("ip", Sort::Ip),
    ("prefix", Sort::Prefix),
    ("pair", Sort::Pair),
    ("string", Sort::String),
    ("bgppath", Sort::Path),
    ("bgpmask", Sort::Mask),
    ("clist", Sort::Clist),
    ("int set", Sort::IntSet),
    ("pair set", Sort::PairSet),
    ("prefix set", Sort::PrefixSet),
    ("source", Sort::Source),
    ("dest", Sort::Dest),
    ("origin", Sort::Origin),
];

pub fn sort_named(text: &str) -> Option<Sort> {
    for (name, sort) in SORTS {
        if name == text {
            return Some(sort);
        }
    }
    None
}

pub fn name_of(sort: Sort) -> &'static str {
    for (name, other) in SORTS {
        if other == sort {
            return name;
        }
    }
    "no sort"
}

pub fn fault_text(fault: FilterFault) -> &'static str {
    match fault {
        FilterFault::NoVerdict => "fault NoVerdict",
        FilterFault::ZeroDivisor => "fault ZeroDivisor",
        FilterFault::Undefined => "fault Undefined",
        FilterFault::PairPart => "fault PairPart",
        FilterFault::PathLong => "fault PathLong",
        FilterFault::ClistLong => "fault ClistLong",
        FilterFault::NoValue => "fault NoValue",
    }
}
