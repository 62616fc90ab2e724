ghost use Rattle.std.specs.Prelude.{◌≡◌, ◌==◌, [], ◌∷◌, map};
ghost use Rattle.std.specs.Bool.{nat_eq};
ghost use Rattle.std.specs.Cmp.Lexicographic.{pointwise};
ghost use Rattle.conf_scan.specs.Shapes.{first_passes};
ghost use Rattle.conf_lex.specs.Symbols.{lookup, symbol_of, spellings_of, long_spellings};
ghost use Rattle.conf_lex.specs.Symbols.{is_placed};

use crate::symbol::Symbol;

fn begins_with(bytes: &[u8], byte: u8) -> bool
    ensures { result ≡ first_passes (λ b. b == byte) bytes.now }
{
    match bytes.first() {
        Some(first) => *first == byte,
        None => false,
    }
}

/// Whether the two are equal. Most spellings differ in their first byte already.
fn is_same(spelling: &[u8], bytes: &[u8]) -> bool
    ensures { result ≡ pointwise nat_eq spelling.now bytes.now }
{
    match spelling.first() {
        Some(first) => begins_with(bytes, *first) && spelling == bytes,
        None => bytes.is_empty(),
    }
}

/// What the first entry with this spelling stands for.
pub fn find<T: Copy>(table: &[(&[u8], T)], bytes: &[u8]) -> Option<T>
    ensures { result ≡ lookup bytes.now (map (λ entry. (entry.0.now, entry.1)) table.now) }
{
    for entry in table {
        if is_same(entry.0, bytes) {
            return Some(entry.1);
        }
    }
    None
}

fn of_one(byte: u8) -> Option<Symbol>
    ensures { result ≡ lookup (byte ∷ []) (spellings_of 1) }
{
    match byte {
        b';' => Some(Symbol::Semicolon),
        b'{' => Some(Symbol::OpenBrace),
        b'}' => Some(Symbol::CloseBrace),
        b'(' => Some(Symbol::OpenParenthesis),
        b')' => Some(Symbol::CloseParenthesis),
        b',' => Some(Symbol::Comma),
        b'/' => Some(Symbol::Slash),
        b'=' => Some(Symbol::Equal),
        b'.' => Some(Symbol::Dot),
        b'!' => Some(Symbol::Not),
        b'<' => Some(Symbol::Less),
        b'>' => Some(Symbol::Greater),
        b'~' => Some(Symbol::Matches),
        b'+' => Some(Symbol::Plus),
        b'-' => Some(Symbol::Minus),
        b'*' => Some(Symbol::Star),
        b'[' => Some(Symbol::OpenBracket),
        b']' => Some(Symbol::CloseBracket),
        b':' => Some(Symbol::Colon),
        b'?' => Some(Symbol::Question),
        _ => None,
    }
}

fn of_two(bytes: &[u8]) -> Option<Symbol>
    ensures { result ≡ lookup bytes.now (spellings_of 2) }
{
    const TABLE: [(&[u8], Symbol); 18] = [
        (b"id", Symbol::Id),
        (b"as", Symbol::As),
        (b"on", Symbol::On),
        (b"no", Symbol::No),
        (b"if", Symbol::If),
        (b"in", Symbol::In),
        (b"do", Symbol::Do),
        (b"ip", Symbol::Ip),
        (b"->", Symbol::Arrow),
        (b"&&", Symbol::And),
        (b"||", Symbol::Or),
        (b"!=", Symbol::NotEqual),
        (b"<=", Symbol::LessOrEqual),
        (b">=", Symbol::GreaterOrEqual),
        (b"!~", Symbol::MatchesNot),
        (b"[=", Symbol::OpenMask),
        (b"=]", Symbol::CloseMask),
        (b"..", Symbol::Range),
    ];
    find(&TABLE, bytes)
}

fn of_three(bytes: &[u8]) -> Option<Symbol>
    ensures { result ≡ lookup bytes.now (spellings_of 3) }
{
    const TABLE: [(&[u8], Symbol); 13] = [
        (b"log", Symbol::Log),
        (b"bgp", Symbol::Bgp),
        (b"via", Symbol::Via),
        (b"med", Symbol::Med),
        (b"off", Symbol::Off),
        (b"hop", Symbol::Hop),
        (b"all", Symbol::All),
        (b"yes", Symbol::Yes),
        (b"add", Symbol::Add),
        (b"for", Symbol::For),
        (b"len", Symbol::Len),
        (b"int", Symbol::Int),
        (b"set", Symbol::Set),
    ];
    find(&TABLE, bytes)
}

fn of_four(bytes: &[u8]) -> Option<Symbol>
    ensures { result ≡ lookup bytes.now (spellings_of 4) }
{
    const TABLE: [(&[u8], Symbol); 18] = [
        (b"ipv4", Symbol::Ipv4),
        (b"ipv6", Symbol::Ipv6),
        (b"pipe", Symbol::Pipe),
        (b"hold", Symbol::Hold),
        (b"time", Symbol::Time),
        (b"peer", Symbol::Peer),
        (b"warn", Symbol::Warn),
        (b"next", Symbol::Next),
        (b"self", Symbol::SelfWord),
        (b"keep", Symbol::Keep),
        (b"none", Symbol::None),
        (b"then", Symbol::Then),
        (b"else", Symbol::Else),
        (b"case", Symbol::Case),
        (b"last", Symbol::Last),
        (b"true", Symbol::True),
        (b"bool", Symbol::Bool),
        (b"pair", Symbol::Pair),
    ];
    find(&TABLE, bytes)
}

fn of_five(bytes: &[u8]) -> Option<Symbol>
    ensures { result ≡ lookup bytes.now (spellings_of 5) }
{
    const TABLE: [(&[u8], Symbol); 13] = [
        (b"table", Symbol::Table),
        (b"route", Symbol::Route),
        (b"local", Symbol::Local),
        (b"retry", Symbol::Retry),
        (b"limit", Symbol::Limit),
        (b"block", Symbol::Block),
        (b"where", Symbol::Where),
        (b"empty", Symbol::Empty),
        (b"unset", Symbol::Unset),
        (b"print", Symbol::Print),
        (b"first", Symbol::First),
        (b"false", Symbol::False),
        (b"clist", Symbol::Clist),
    ];
    find(&TABLE, bytes)
}

fn of_six(bytes: &[u8]) -> Option<Symbol>
    ensures { result ≡ lookup bytes.now (spellings_of 6) }
{
    const TABLE: [(&[u8], Symbol); 17] = [
        (b"router", Symbol::Router),
        (b"define", Symbol::Define),
        (b"filter", Symbol::Filter),
        (b"device", Symbol::Device),
        (b"static", Symbol::Static),
        (b"metric", Symbol::Metric),
        (b"direct", Symbol::Direct),
        (b"import", Symbol::Import),
        (b"export", Symbol::Export),
        (b"action", Symbol::Action),
        (b"delete", Symbol::Delete),
        (b"accept", Symbol::Accept),
        (b"reject", Symbol::Reject),
        (b"return", Symbol::Return),
        (b"printn", Symbol::Printn),
        (b"prefix", Symbol::Prefix),
        (b"string", Symbol::String),
    ];
    find(&TABLE, bytes)
}

fn of_seven(bytes: &[u8]) -> Option<Symbol>
    ensures { result ≡ lookup bytes.now (spellings_of 7) }
{
    const TABLE: [(&[u8], Symbol); 11] = [
        (b"default", Symbol::Default),
        (b"address", Symbol::Address),
        (b"connect", Symbol::Connect),
        (b"passive", Symbol::Passive),
        (b"disable", Symbol::Disable),
        (b"prepend", Symbol::Prepend),
        (b"defined", Symbol::Defined),
        (b"bgppath", Symbol::PathType),
        (b"bgpmask", Symbol::MaskType),
        (b"+empty+", Symbol::EmptyPath),
        (b"-empty-", Symbol::EmptyClist),
    ];
    find(&TABLE, bytes)
}

fn of_eight(bytes: &[u8]) -> Option<Symbol>
    ensures { result ≡ lookup bytes.now (spellings_of 8) }
{
    const TABLE: [(&[u8], Symbol); 6] = [
        (b"function", Symbol::Function),
        (b"protocol", Symbol::Protocol),
        (b"prohibit", Symbol::Prohibit),
        (b"neighbor", Symbol::Neighbor),
        (b"password", Symbol::Password),
        (b"multihop", Symbol::Multihop),
    ];
    find(&TABLE, bytes)
}

fn of_more(bytes: &[u8]) -> Option<Symbol>
    ensures { result ≡ lookup bytes.now long_spellings }
{
    const TABLE: [(&[u8], Symbol); 6] = [
        (b"blackhole", Symbol::Blackhole),
        (b"unreachable", Symbol::Unreachable),
        (b"interpret", Symbol::Interpret),
        (b"communities", Symbol::Communities),
        (b"description", Symbol::Description),
        (b"keepalive", Symbol::Keepalive),
    ];
    find(&TABLE, bytes)
}

/// The symbol that is spelled so, found among the spellings of this length.
pub fn symbol_of(bytes: &[u8]) -> Option<Symbol>
    ensures { result ≡ symbol_of bytes.now }
{
    match bytes.len() {
        1 => of_one(bytes[0]),
        2 => of_two(bytes),
        3 => of_three(bytes),
        4 => of_four(bytes),
        5 => of_five(bytes),
        6 => of_six(bytes),
        7 => of_seven(bytes),
        8 => of_eight(bytes),
        _ => of_more(bytes),
    }
}

/// Whether a word for the symbol carries its place.
pub fn is_placed(symbol: Symbol) -> bool
    ensures { result ≡ is_placed symbol }
{
    match symbol {
        Symbol::Ipv4 => true,
        Symbol::Ipv6 => true,
        Symbol::Filter => true,
        Symbol::Static => true,
        Symbol::Bgp => true,
        Symbol::Pipe => true,
        Symbol::True => true,
        Symbol::False => true,
        Symbol::EmptyPath => true,
        Symbol::EmptyClist => true,
        Symbol::OpenMask => true,
        Symbol::Prepend => true,
        Symbol::Add => true,
        Symbol::Delete => true,
        Symbol::Defined => true,
        Symbol::Case => true,
        Symbol::For => true,
        Symbol::Return => true,
        Symbol::Not => true,
        Symbol::OpenBracket => true,
        Symbol::OpenParenthesis => true,
        Symbol::Where => true,
        _ => false,
    }
}
