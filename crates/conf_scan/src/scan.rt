ghost use Rattle.std.specs.Prelude.{◌≡◌, ◌≤◌, ◌∷◌, [], length, drop, count_by, ◌==◌};
ghost use Rattle.std.specs.Prelude.{if◌then◌else◌};
ghost use Rattle.std.specs.Char.{is_ascii_digit, is_ascii_hexdigit};
ghost use Rattle.std.specs.Bool.{nat_eq};
ghost use Rattle.std.specs.Cmp.Lexicographic.{pointwise};
ghost use Rattle.std.specs.List.{list_any, prefix_len, take_while};
ghost use Rattle.conf_scan.specs.Shapes.{is_letter, is_name_byte, is_quoted_byte, is_text_byte};
ghost use Rattle.conf_scan.specs.Shapes.{is_colons_byte, is_short_sign, is_pair_sign};
ghost use Rattle.conf_scan.specs.Shapes.{is_empty_sign, first_passes};
ghost use Rattle.conf_scan.specs.Fronts.{quote_len, text_len, dot_len, dotted_len};
ghost use Rattle.conf_scan.specs.Fronts.{begins_hexadecimal, dotted_or_number, is_plus_or_minus};
ghost use Rattle.conf_scan.specs.Fronts.{begins_empty_sign, begins_pair_sign, sign_at, sign_len};
ghost use Rattle.conf_scan.specs.Fronts.{begins_colons, plain_front};

/// The sorts of token, each with a shape of its own.
#[derive(Clone, Copy, Debug, PartialEq, Eq)]
pub enum Lexeme {
    /// A name or a word of the grammars.
    Word,
    /// A name between single quotes.
    QuotedName,
    Decimal,
    Hexadecimal,
    /// An IPv4 address.
    Ipv4,
    /// An IPv6 address.
    Ipv6,
    /// A text between double quotes.
    Text,
    /// A sign.
    Punctuation,
}

fn is_letter(byte: u8) -> bool
    ensures { result ≡ is_letter byte }
{
    byte.is_ascii_alphabetic() || byte == b'_'
}

fn is_name_byte(byte: u8) -> bool
    ensures { result ≡ is_name_byte byte }
{
    byte.is_ascii_alphanumeric() || byte == b'_'
}

fn is_quoted_byte(byte: u8) -> bool
    ensures { result ≡ is_quoted_byte byte }
{
    is_name_byte(byte) || byte == b'-' || byte == b'.' || byte == b':'
}

fn is_colons_byte(byte: u8) -> bool
    ensures { result ≡ is_colons_byte byte }
{
    byte.is_ascii_hexdigit() || byte == b':'
}

fn name_len(text: &[u8]) -> usize
    ensures len { result ≡ prefix_len is_name_byte text.now }
    ensures within { result ≤ length text.now }
{
    text.iter().take_while(|byte| is_name_byte(**byte)).count()
}

fn quoted_bytes(text: &[u8]) -> usize
    ensures len { result ≡ prefix_len is_quoted_byte text.now }
    ensures within { result ≤ length text.now }
{
    text.iter()
        .take_while(|byte| is_quoted_byte(**byte))
        .count()
}

fn text_bytes(text: &[u8]) -> usize
    ensures len { result ≡ prefix_len is_text_byte text.now }
    ensures within { result ≤ length text.now }
{
    text.iter()
        .take_while(|byte| **byte != b'"' && **byte != b'\n')
        .count()
}

fn digits_len(text: &[u8]) -> usize
    ensures len { result ≡ prefix_len is_ascii_digit text.now }
    ensures within { result ≤ length text.now }
{
    text.iter().take_while(|byte| byte.is_ascii_digit()).count()
}

fn hexadecimal_len(text: &[u8]) -> usize
    ensures len { result ≡ prefix_len is_ascii_hexdigit text.now }
    ensures within { result ≤ length text.now }
{
    text.iter()
        .take_while(|byte| byte.is_ascii_hexdigit())
        .count()
}

/// How long the run of hexadecimal digits and colons at the front is.
pub fn colons_len(text: &[u8]) -> usize
    ensures len { result ≡ prefix_len is_colons_byte text.now }
    ensures within { result ≤ length text.now }
{
    text.iter()
        .take_while(|byte| is_colons_byte(**byte))
        .count()
}

pub fn begins_with(text: &[u8], mark: u8) -> bool
    ensures { result ≡ first_passes (λ b. b == mark) text.now }
{
    match text.first() {
        Some(byte) => *byte == mark,
        None => false,
    }
}

fn begins_with_name_byte(text: &[u8]) -> bool
    ensures { result ≡ first_passes is_name_byte text.now }
{
    match text.first() {
        Some(byte) => is_name_byte(*byte),
        None => false,
    }
}

/// The text from a place on.
pub fn tail(text: &[u8], at: usize) -> &[u8]
    requires { at ≤ length text.now }
    ensures { result.now ≡ drop at text.now }
{
    &text[at..]
}

/// How long a quoted name is, by what stands behind its first quote.
fn quote_len(text: &[u8]) -> Option<usize>
    ensures { result ≡ quote_len text.now }
{
    let len = quoted_bytes(text);
    if len > 0 && begins_with(tail(text, len), b'\'') {
        Some(len + 2)
    } else {
        None
    }
}

/// How long a text is, by what stands behind its first quote.
fn text_len(text: &[u8]) -> Option<usize>
    ensures { result ≡ text_len text.now }
{
    let len = text_bytes(text);
    if begins_with(tail(text, len), b'"') {
        Some(len + 2)
    } else {
        None
    }
}

/// How long a number and the dot behind it are.
fn dot_len(text: &[u8]) -> Option<usize>
    ensures { result ≡ dot_len text.now }
{
    let len = digits_len(text);
    if len > 0 && begins_with(tail(text, len), b'.') {
        Some(len + 1)
    } else {
        None
    }
}

/// How long an IPv4 address is: four numbers with a dot between each two.
fn dotted_len(text: &[u8]) -> Option<usize>
    ensures { result ≡ dotted_len 3 text.now }
{
    let second = dot_len(text)?;
    let third = second + dot_len(tail(text, second))?;
    let fourth = third + dot_len(tail(text, third))?;
    let last = digits_len(tail(text, fourth));
    if last > 0 { Some(fourth + last) } else { None }
}

/// Whether `0x` stands at the front.
pub fn begins_hexadecimal(text: &[u8]) -> bool
    ensures { result ≡ begins_hexadecimal text.now }
{
    matches!(text, [b'0', b'x', ..])
}

/// The number or IPv4 address at the front, at a digit.
fn number_front(text: &[u8]) -> (Lexeme, usize)
    ensures { result ≡ dotted_or_number (dotted_len 3 text.now) text.now }
{
    if let Some(len) = dotted_len(text) {
        return (Lexeme::Ipv4, len);
    }
    if begins_hexadecimal(text) {
        (Lexeme::Hexadecimal, hexadecimal_len(tail(text, 2)) + 2)
    } else {
        (Lexeme::Decimal, digits_len(text))
    }
}

/// Whether these bytes are one of the signs.
fn is_among(bytes: &[u8], signs: &[&[u8]]) -> bool
    ensures { result ≡ list_any (λ sign. pointwise nat_eq bytes.now sign.now) signs.now }
{
    signs.iter().any(|sign| bytes == *sign)
}

/// Whether this byte is a sign by itself.
fn is_short_sign(byte: u8) -> bool
    ensures { result ≡ is_short_sign (byte ∷ []) }
{
    match byte {
        b';' | b'{' | b'}' | b'(' | b')' | b',' | b'/' | b'=' | b'.' | b'!' => true,
        b'<' | b'>' | b'~' | b'+' | b'-' | b'*' | b'[' | b']' | b':' | b'?' => true,
        _ => false,
    }
}

/// Whether these two bytes are a sign.
fn is_pair_sign(first: u8, second: u8) -> bool
    ensures { result ≡ is_pair_sign (first ∷ second ∷ []) }
{
    match first {
        b'-' => second == b'>',
        b'&' => second == b'&',
        b'|' => second == b'|',
        b'!' => matches!(second, b'=' | b'~'),
        b'<' => second == b'=',
        b'>' => second == b'=',
        b'[' => second == b'=',
        b'=' => second == b']',
        b'.' => second == b'.',
        _ => false,
    }
}

fn is_empty_sign(bytes: &[u8]) -> bool
    ensures { result ≡ is_empty_sign bytes.now }
{
    const SIGNS: [&[u8]; 2] = [b"+empty+", b"-empty-"];
    is_among(bytes, &SIGNS)
}

fn is_plus_or_minus(byte: u8) -> bool
    ensures { result ≡ is_plus_or_minus byte }
{
    byte == b'+' || byte == b'-'
}

fn begins_empty_sign(text: &[u8]) -> bool
    ensures { result ≡ begins_empty_sign text.now }
{
    match text.get(..7) {
        Some(front) => is_empty_sign(front),
        None => false,
    }
}

/// Whether these two bytes are a sign, where there is a second one.
fn begins_pair_sign(first: u8, behind: &[u8]) -> bool
    ensures { result ≡ begins_pair_sign first behind.now }
{
    match behind.first() {
        Some(second) => is_pair_sign(first, *second),
        None => false,
    }
}

/// How long the longest sign at the front is, which begins with this byte.
fn sign_at(first: u8, behind: &[u8], text: &[u8]) -> Option<usize>
    ensures { result ≡ sign_at first behind.now text.now }
{
    if first == b'/' && begins_with(behind, b'*') {
        None
    } else if is_plus_or_minus(first) && begins_empty_sign(text) {
        Some(7)
    } else if begins_pair_sign(first, behind) {
        Some(2)
    } else if is_short_sign(first) {
        Some(1)
    } else {
        None
    }
}

/// How long the longest sign at the front is.
fn sign_len(text: &[u8]) -> Option<usize>
    ensures { result ≡ sign_len text.now }
{
    let (first, behind) = text.split_first()?;
    sign_at(*first, behind, text)
}

/// The run of hexadecimal digits and colons at the front of a text.
#[derive(Clone, Copy, Debug, PartialEq, Eq)]
pub struct ColonsRun {
    pub len: usize,
    pub colons: usize,
}

fn colon_count(byte: u8) -> usize
    ensures { result ≡ (if byte == 58 then 1 else 0) }
{
    if byte == b':' { 1 } else { 0 }
}

/// The run at the front, in one pass.
pub fn colons_run(text: &[u8]) -> ColonsRun
    ensures len { result.len ≡ prefix_len is_colons_byte text.now }
    ensures colons { result.colons ≡ count_by (λ b. b == 58) (take_while is_colons_byte text.now) }
    ensures within { result.len ≤ length text.now }
{
    let mut len = 0;
    let mut colons = 0;
    for byte in text {
        if !is_colons_byte(*byte) {
            break;
        }
        len += 1;
        colons += colon_count(*byte);
    }
    ColonsRun { len, colons }
}

/// Whether an IPv6 address begins here: the whole run at the front.
pub fn begins_colons(text: &[u8], run: ColonsRun) -> bool
    requires len { run.len ≡ prefix_len is_colons_byte text.now }
    requires colons { run.colons ≡ count_by (λ b. b == 58) (take_while is_colons_byte text.now) }
    requires within { run.len ≤ length text.now }
    ensures { result ≡ begins_colons text.now }
{
    run.colons >= 2 && !begins_with_name_byte(tail(text, run.len))
}

/// The longest token at the front and its sort, where no IPv6 address begins.
pub fn plain_front(text: &[u8]) -> Option<(Lexeme, usize)>
    ensures { result ≡ plain_front text.now }
{
    let (first, behind) = text.split_first()?;
    if is_letter(*first) {
        return Some((Lexeme::Word, name_len(text)));
    }
    if first.is_ascii_digit() {
        return Some(number_front(text));
    }
    match *first {
        b'\'' => Some((Lexeme::QuotedName, quote_len(behind)?)),
        b'"' => Some((Lexeme::Text, text_len(behind)?)),
        _ => Some((Lexeme::Punctuation, sign_len(text)?)),
    }
}
