//! The trees of configurations. Each `at` is the byte of the source at which what it is of begins.

use crate::Name;
use crate::filters::{Block, Expr, Filter, Function, Item, MaskItem, Num};
use bits_ip::{Addr, Family, Prefix};

/// An address, and its place.
#[derive(Clone, Copy, Debug)]
pub struct Address {
    pub at: usize,
    pub addr: Addr,
}

/// A text: its place, and where the bytes between its quotes stand in the source.
#[derive(Clone, Copy, Debug)]
pub struct StringLiteral {
    pub at: usize,
    pub start: usize,
    pub len: usize,
}

/// `on` and `yes`, `off` and `no`.
#[derive(Clone, Copy, Debug, PartialEq, Eq)]
pub enum Switch {
    On,
    Yes,
    Off,
    No,
}

/// The value of a constant.
#[derive(Drop)]
pub enum Literal {
    Number { at: usize, value: u32 },
    Text(StringLiteral),
    Ip(Address),
    Prefix { at: usize, net: Prefix },
    True { at: usize },
    False { at: usize },
    /// The value of another constant.
    Name(Name),
    /// A pair; `at` is the place of its parenthesis.
    Pair { at: usize, first: Num, second: Num },
    Set { at: usize, items: Vec<Item> },
    Mask { at: usize, items: Vec<MaskItem> },
}

/// What of the routes passes (BIRD User's Guide, "Protocol options").
#[derive(Drop)]
pub enum Policy {
    All,
    None,
    /// A filter by its name; `at` is the place of the word `filter`.
    Filter { at: usize, name: Name },
    Block { at: usize, block: Block },
    /// A condition; `at` is the place of the word `where`.
    Where { at: usize, condition: Expr },
}

/// What is done at an import limit.
#[derive(Clone, Copy, Debug, PartialEq, Eq)]
pub enum Action {
    Warn,
    Block,
    Disable,
}

/// An import limit.
#[derive(Clone, Copy, Debug)]
pub enum Limit {
    Off,
    Count { count: Num, action: Option<Action> },
}

/// `next hop`, which has no effect.
#[derive(Clone, Copy, Debug, PartialEq, Eq)]
pub enum NextHop {
    /// `self`
    Own,
    Keep,
}

/// An option of a channel (BIRD User's Guide, "Channel options").
#[derive(Drop)]
pub enum ChannelOption {
    Table(Name),
    Import(Policy),
    Export(Policy),
    Preference { at: usize, value: Num },
    ImportLimit(Limit),
    NextHop(NextHop),
}

/// A channel: the place of its family's word, the family, and the options between its braces, where
/// it has them.
#[derive(Drop)]
pub struct Channel {
    pub at: usize,
    pub family: Family,
    pub options: Option<Vec<ChannelOption>>,
}

/// Where a static route leads.
#[derive(Clone, Copy, Debug)]
pub enum RouteTarget {
    Via(Address),
    Blackhole,
    Unreachable,
    Prohibit,
}

/// A static route, and the place of its prefix.
#[derive(Clone, Copy, Debug)]
pub struct Route {
    pub at: usize,
    pub net: Prefix,
    pub target: RouteTarget,
}

/// An option of a static protocol (BIRD User's Guide, "Static").
#[derive(Drop)]
pub enum StaticOption {
    Channel(Channel),
    Route(Route),
}

/// An option of a BGP session's transport, which has no effect.
#[derive(Clone, Copy, Debug)]
pub enum Transport {
    Description(StringLiteral),
    Password(StringLiteral),
    /// `at` is the place of the word `source`.
    SourceAddress { at: usize, address: Address },
    HoldTime(Num),
    KeepaliveTime(Num),
    ConnectRetryTime(Num),
    Multihop(Option<Num>),
    Direct,
    Passive(Option<Switch>),
}

/// An option of a BGP protocol (BIRD User's Guide, "BGP").
#[derive(Drop)]
pub enum BgpOption {
    Channel(Channel),
    Local {
        address: Option<Address>,
        number: Num,
    },
    Neighbor {
        address: Address,
        number: Num,
    },
    MedMetric(Switch),
    InterpretCommunities(Switch),
    /// `default bgp_med`; `at` is the place of the attribute's word.
    DefaultMed {
        at: usize,
        value: Num,
    },
    /// `default bgp_local_pref`
    DefaultLocalPref {
        at: usize,
        value: Num,
    },
    Transport(Transport),
}

/// An option of a pipe (BIRD User's Guide, "Pipe").
#[derive(Drop)]
pub enum PipeOption {
    Table(Name),
    PeerTable(Name),
    Import(Policy),
    Export(Policy),
}

/// A protocol: the place of its kind's word, its name, where it has one, its options, and whether a
/// `;` stands behind it.
#[derive(Drop)]
pub struct Protocol<I> {
    pub at: usize,
    pub name: Option<Name>,
    pub options: Vec<I>,
    pub semicolon: bool,
}

/// A statement of the configuration (BIRD User's Guide, "Global options").
#[derive(Drop)]
pub enum Statement {
    /// `router id`, which has no effect.
    RouterId(Address),
    /// `log`, which has no effect.
    Log,
    Define {
        name: Name,
        value: Literal,
    },
    /// A table; `at` is the place of its family's word.
    Table {
        at: usize,
        family: Family,
        name: Name,
    },
    Function(Function),
    /// A filter; `at` is the place of the word `filter`.
    Filter {
        at: usize,
        filter: Filter,
    },
    /// `protocol device`, which has no effect.
    Device {
        name: Option<Name>,
        semicolon: bool,
    },
    Static(Protocol<StaticOption>),
    Bgp(Protocol<BgpOption>),
    Pipe(Protocol<PipeOption>),
}

/// A configuration: the source, in which names and texts have their bytes, and the statements.
#[derive(Drop)]
pub struct Config<'a> {
    pub text: &'a [u8],
    pub statements: Vec<Statement>,
}
