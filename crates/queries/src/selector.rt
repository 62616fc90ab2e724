//! Which nets a question is about.
ghost use Rattle.std.specs.Prelude.{◌≡◌, ◌∷◌, ℕ, List, codes, MatchOption};
ghost use Rattle.bits_ip.specs.Address.{width_of};
ghost use Rattle.bits_ip.specs.Prefix.{Net};
ghost use Rattle.bits_ip.specs.Text.{IsAddrText, IsNetText};
ghost use Rattle.bits_ip.specs.declared.address.Addr.{Addr};
ghost use Rattle.text.specs.Lines.{words_of, behind_word};
ghost use Rattle.queries.specs.Question.{Asked, IsPlace, IsQuestion};
ghost use Rattle.queries.specs.Inside.{Selects, BeginsWithNet, HasNoNet};

use attrs::Select;
use bits_ip::{Addr, Prefix, parse_addr, parse_prefix};
use text::next_word;

/// Which nets are meant, and what stands behind the words that say it.
#[derive(Clone, Copy)]
pub struct Selected<'a> {
    pub pick: Select,
    pub rest: &'a [u8],
}

/// The nets that the words at the front say: all, where none does.
pub fn read_selector(text: &[u8]) -> Option<Selected<'_>>
    ensures { MatchOption result
        ((asked : Asked) → IsQuestion text.now asked → ⊥)
        (λ found. Selects text.now found.pick found.rest.now) }
{
    match next_word(text) {
        Some((word, behind)) => selector_of(text, word, behind),
        None => Some(Selected {
            pick: Select::All,
            rest: text,
        }),
    }
}

/// The nets that a text with this first word says.
fn selector_of<'a>(text: &'a [u8], word: &'a [u8], behind: &'a [u8]) -> Option<Selected<'a>>
    requires cut { words_of text.now ≡ word.now ∷ words_of behind.now }
    requires behind { behind.now ≡ behind_word text.now }
    ensures { MatchOption result
        ((asked : Asked) → IsQuestion text.now asked → ⊥)
        (λ found. Selects text.now found.pick found.rest.now) }
{
    if word == b"for".as_slice() {
        behind_for(behind)
    } else if word == b"in".as_slice() {
        behind_in(behind)
    } else {
        without_label(text, word, behind)
    }
}

/// The longest net for what stands behind `for`.
fn behind_for(behind: &[u8]) -> Option<Selected<'_>>
    ensures { (text word : List ℕ) → words_of text ≡ word ∷ words_of behind.now
        → behind.now ≡ behind_word text → word ≡ codes "for" → MatchOption result
        ((asked : Asked) → IsQuestion text asked → ⊥)
        (λ found. Selects text found.pick found.rest.now) }
{
    match next_place(behind) {
        Some(found) => Some(Selected {
            pick: Select::For(found.0),
            rest: found.1,
        }),
        None => None,
    }
}

/// The nets within what stands behind `in`.
fn behind_in(behind: &[u8]) -> Option<Selected<'_>>
    ensures { (text word : List ℕ) → words_of text ≡ word ∷ words_of behind.now
        → behind.now ≡ behind_word text → word ≡ codes "in" → MatchOption result
        ((asked : Asked) → IsQuestion text asked → ⊥)
        (λ found. Selects text found.pick found.rest.now) }
{
    match next_net(behind) {
        Some(found) => Some(Selected {
            pick: Select::Within(found.0),
            rest: found.1,
        }),
        None => None,
    }
}

/// The net that this word is, or else all, and then the word is none of the selector's.
fn without_label<'a>(text: &'a [u8], word: &'a [u8], behind: &'a [u8]) -> Option<Selected<'a>>
    requires cut { words_of text.now ≡ word.now ∷ words_of behind.now }
    requires behind { behind.now ≡ behind_word text.now }
    requires no_for { word.now ≡ codes "for" → ⊥ }
    requires no_in { word.now ≡ codes "in" → ⊥ }
    ensures { MatchOption result
        ((asked : Asked) → IsQuestion text.now asked → ⊥)
        (λ found. Selects text.now found.pick found.rest.now) }
{
    match parse_prefix(word) {
        Some(net) => Some(Selected {
            pick: Select::Exact(net),
            rest: behind,
        }),
        None => Some(Selected {
            pick: Select::All,
            rest: text,
        }),
    }
}

/// The prefix at the front.
fn next_net(text: &[u8]) -> Option<(Prefix, &[u8])>
    ensures { MatchOption result
        (HasNoNet IsNetText (words_of text.now))
        (λ found. BeginsWithNet IsNetText text.now found.0 found.1.now) }
{
    let (word, rest) = next_word(text)?;
    let net = parse_prefix(word)?;
    Some((net, rest))
}

/// The prefix at the front, or the address there as the prefix of full length.
fn next_place(text: &[u8]) -> Option<(Prefix, &[u8])>
    ensures { MatchOption result
        (HasNoNet IsPlace (words_of text.now))
        (λ found. BeginsWithNet IsPlace text.now found.0 found.1.now) }
{
    let (word, rest) = next_word(text)?;
    let net = parse_place(word)?;
    Some((net, rest))
}

fn parse_place(word: &[u8]) -> Option<Prefix>
    ensures { MatchOption result
        ((net : Net) → IsPlace word.now net → ⊥)
        (λ net. IsPlace word.now net) }
{
    match parse_prefix(word) {
        Some(net) => Some(net),
        None => parse_full(word),
    }
}

/// The address that the word spells, as the prefix of full length.
fn parse_full(word: &[u8]) -> Option<Prefix>
    ensures { MatchOption result
        ((addr : Addr) → IsAddrText word.now addr → ⊥)
        (λ net. IsAddrText word.now net.addr × (net.len ≡ width_of net.addr)) }
{
    let addr = parse_addr(word)?;
    Some(full_prefix(addr))
}

#[tactic(auto, using(crate::proofs::Selectors::full_is_prefix))]
fn full_prefix(addr: Addr) -> Prefix
    ensures { (result.addr ≡ addr) × (result.len ≡ width_of addr) }
{
    match Prefix::make(addr, width_of(addr)) {
        Ok(net) => net,
        Err(_) => unreachable!(),
    }
}

/// How many bits an address of this family has.
fn width_of(addr: Addr) -> u8
    ensures { result ≡ width_of addr }
{
    match addr {
        Addr::V4(_) => 32,
        Addr::V6(_) => 128,
    }
}
