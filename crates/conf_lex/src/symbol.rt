/// The words and signs that the grammars of configurations and filters quote: all that is no name,
/// number, text, address, attribute or constant. `ElseColon` is an `else` with a colon next after
/// it, which begins the last part of a `case` (BIRD User's Guide, "Control structures").
#[derive(Clone, Copy, Debug, PartialEq, Eq)]
pub enum Symbol {
    /// `router`
    Router,
    /// `id`
    Id,
    /// `log`
    Log,
    /// `define`
    Define,
    /// `ipv4`
    Ipv4,
    /// `ipv6`
    Ipv6,
    /// `table`
    Table,
    /// `function`
    Function,
    /// `filter`
    Filter,
    /// `protocol`
    Protocol,
    /// `device`
    Device,
    /// `static`
    Static,
    /// `bgp`
    Bgp,
    /// `pipe`
    Pipe,
    /// `route`
    Route,
    /// `via`
    Via,
    /// `blackhole`
    Blackhole,
    /// `unreachable`
    Unreachable,
    /// `prohibit`
    Prohibit,
    /// `local`
    Local,
    /// `as`
    As,
    /// `neighbor`
    Neighbor,
    /// `med`
    Med,
    /// `metric`
    Metric,
    /// `interpret`
    Interpret,
    /// `communities`
    Communities,
    /// `default`
    Default,
    /// `description`
    Description,
    /// `password`
    Password,
    /// `address`
    Address,
    /// `hold`
    Hold,
    /// `time`
    Time,
    /// `keepalive`
    Keepalive,
    /// `connect`
    Connect,
    /// `retry`
    Retry,
    /// `multihop`
    Multihop,
    /// `direct`
    Direct,
    /// `passive`
    Passive,
    /// `peer`
    Peer,
    /// `import`
    Import,
    /// `export`
    Export,
    /// `limit`
    Limit,
    /// `action`
    Action,
    /// `warn`
    Warn,
    /// `block`
    Block,
    /// `disable`
    Disable,
    /// `off`
    Off,
    /// `next`
    Next,
    /// `hop`
    Hop,
    /// `self`
    SelfWord,
    /// `keep`
    Keep,
    /// `all`
    All,
    /// `none`
    None,
    /// `where`
    Where,
    /// `on`
    On,
    /// `yes`
    Yes,
    /// `no`
    No,
    /// `prepend`
    Prepend,
    /// `add`
    Add,
    /// `delete`
    Delete,
    /// `empty`
    Empty,
    /// `unset`
    Unset,
    /// `if`
    If,
    /// `then`
    Then,
    /// `else`
    Else,
    /// `case`
    Case,
    /// `for`
    For,
    /// `in`
    In,
    /// `do`
    Do,
    /// `accept`
    Accept,
    /// `reject`
    Reject,
    /// `return`
    Return,
    /// `print`
    Print,
    /// `printn`
    Printn,
    /// `len`
    Len,
    /// `first`
    First,
    /// `last`
    Last,
    /// `ip`
    Ip,
    /// `defined`
    Defined,
    /// `true`
    True,
    /// `false`
    False,
    /// `int`
    Int,
    /// `bool`
    Bool,
    /// `prefix`
    Prefix,
    /// `pair`
    Pair,
    /// `string`
    String,
    /// `bgppath`
    PathType,
    /// `bgpmask`
    MaskType,
    /// `clist`
    Clist,
    /// `set`
    Set,
    /// `;`
    Semicolon,
    /// `{`
    OpenBrace,
    /// `}`
    CloseBrace,
    /// `(`
    OpenParenthesis,
    /// `)`
    CloseParenthesis,
    /// `,`
    Comma,
    /// `/`
    Slash,
    /// `->`
    Arrow,
    /// `=`
    Equal,
    /// `.`
    Dot,
    /// `&&`
    And,
    /// `||`
    Or,
    /// `!`
    Not,
    /// `!=`
    NotEqual,
    /// `<`
    Less,
    /// `<=`
    LessOrEqual,
    /// `>`
    Greater,
    /// `>=`
    GreaterOrEqual,
    /// `~`
    Matches,
    /// `!~`
    MatchesNot,
    /// `+`
    Plus,
    /// `-`
    Minus,
    /// `*`
    Star,
    /// `+empty+`
    EmptyPath,
    /// `-empty-`
    EmptyClist,
    /// `[`
    OpenBracket,
    /// `]`
    CloseBracket,
    /// `[=`
    OpenMask,
    /// `=]`
    CloseMask,
    /// `:`
    Colon,
    /// `..`
    Range,
    /// `?`
    Question,
    /// `else` and `:`
    ElseColon,
}
