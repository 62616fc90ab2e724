ghost use Rattle.std.specs.Prelude.{◌≡◌, ◌≤◌};
ghost use Rattle.rec_words.specs.Spelling.{dest_number, kind_number, origin_number};
ghost use Rattle.rec_words.specs.Reading.{dest_of, Gives, kind_of, origin_of, shape_at, shape_in, shape_of, word_of};

use crate::fault::Misspelt;
use attrs::{Attrs, Dest, Kind, Origin};

/// What sort of route it is, which values it has, and how long its lists are: a word of its own.
#[derive(Clone, Copy)]
pub(crate) struct Shape {
    pub kind: Kind,
    pub dest: Dest,
    pub ebgp: bool,
    pub origin: Option<Origin>,
    pub has_med: bool,
    pub has_lp: bool,
    pub has_igp: bool,
    pub path_len: u8,
    pub com_len: u8,
}

/// The unit of each value of the word but the first.
const DEST: u64 = 0x10;

const EBGP: u64 = 0x100;

const ORIGIN: u64 = 0x1000;

const HAS_MED: u64 = 0x1_0000;

const HAS_LP: u64 = 0x2_0000;

const HAS_IGP: u64 = 0x4_0000;

const PATH_LEN: u64 = 0x100_0000;

const COM_LEN: u64 = 0x1_0000_0000;

impl Shape {
    pub fn of_attrs(attrs: &Attrs) -> Shape
        ensures { result ≡ shape_of attrs.now }
    {
        Shape {
            kind: attrs.kind,
            dest: attrs.dest,
            ebgp: attrs.ebgp,
            origin: attrs.origin,
            has_med: attrs.med.is_some(),
            has_lp: attrs.lp.is_some(),
            has_igp: attrs.igp.is_some(),
            path_len: attrs.path.as_slice().len() as u8,
            com_len: attrs.coms.as_slice().len() as u8,
        }
    }

    /// The shape that the word spells.
    #[tactic(auto, unfolding(crate::specs::Reading::shape_at))]
    pub fn of_word(word: u64) -> Result<Shape, Misspelt>
        ensures { Gives (λ shape. shape) result (shape_at word) }
    {
        let shape = Shape::in_word(word);
        if shape.word() != word {
            return Err(Misspelt);
        }
        Ok(shape)
    }

    fn in_word(word: u64) -> Shape
        ensures { result ≡ shape_in word }
    {
        Shape {
            kind: kind_of(word % 2),
            dest: dest_of(word / DEST % 4),
            ebgp: word / EBGP % 2 == 1,
            origin: origin_of(word / ORIGIN % 4),
            has_med: word / HAS_MED % 2 == 1,
            has_lp: word / HAS_LP % 2 == 1,
            has_igp: word / HAS_IGP % 2 == 1,
            path_len: (word / PATH_LEN % 256) as u8,
            com_len: (word / COM_LEN % 256) as u8,
        }
    }

    pub fn word(&self) -> u64
        ensures { result ≡ word_of self.now }
    {
        let sort = kind_number(self.kind) + dest_number(self.dest) * DEST;
        let way = u64::from(self.ebgp) * EBGP + origin_number(self.origin) * ORIGIN;
        let values = u64::from(self.has_med) * HAS_MED
            + u64::from(self.has_lp) * HAS_LP
            + u64::from(self.has_igp) * HAS_IGP;
        let lists = u64::from(self.path_len) * PATH_LEN + u64::from(self.com_len) * COM_LEN;
        sort + way + values + lists
    }
}

fn kind_number(kind: Kind) -> u64
    ensures number { result ≡ kind_number kind }
    ensures small { result ≤ 1 }
{
    match kind {
        Kind::Static => 0,
        Kind::Bgp => 1,
    }
}

fn kind_of(digit: u64) -> Kind
    ensures { result ≡ kind_of digit }
{
    if digit == 0 { Kind::Static } else { Kind::Bgp }
}

fn dest_number(dest: Dest) -> u64
    ensures number { result ≡ dest_number dest }
    ensures small { result ≤ 3 }
{
    match dest {
        Dest::Unicast => 0,
        Dest::Blackhole => 1,
        Dest::Unreachable => 2,
        Dest::Prohibit => 3,
    }
}

fn dest_of(digit: u64) -> Dest
    ensures { result ≡ dest_of digit }
{
    match digit {
        0 => Dest::Unicast,
        1 => Dest::Blackhole,
        2 => Dest::Unreachable,
        _ => Dest::Prohibit,
    }
}

fn origin_number(origin: Option<Origin>) -> u64
    ensures number { result ≡ origin_number origin }
    ensures small { result ≤ 3 }
{
    match origin {
        None => 0,
        Some(Origin::Igp) => 1,
        Some(Origin::Egp) => 2,
        Some(Origin::Incomplete) => 3,
    }
}

fn origin_of(digit: u64) -> Option<Origin>
    ensures { result ≡ origin_of digit }
{
    match digit {
        0 => None,
        1 => Some(Origin::Igp),
        2 => Some(Origin::Egp),
        _ => Some(Origin::Incomplete),
    }
}
