//! An `add`: what a line says of a route.
ghost use Rattle.std.specs.Prelude.{◌≡◌, ℕ, List, Option, true, MatchOption, MatchResult};
ghost use Rattle.std.specs.List.{list_all};
ghost use Rattle.bits_ip.specs.declared.address.Addr.{Addr};
ghost use Rattle.bits_ip.specs.Prefix.{Net};
ghost use Rattle.attrs.specs.Text.{origin_text};
ghost use Rattle.attrs.specs.declared.attributes.Origin.{Origin};
ghost use Rattle.import_core.specs.declared.operation.Given.{Given};
ghost use Rattle.text.specs.Lines.{words_of};
ghost use Rattle.announcements.specs.Grammar.{IsAdd};
ghost use Rattle.announcements.specs.Limits.{fits, path_fits, option_fits, coms_fit, given_fits};
ghost use Rattle.announcements.specs.Reading.{IfForm, kept, KeepsNumber, ReadsNumbers, IsVia};
ghost use Rattle.announcements.specs.Reading.{IsOrigin, IsPathAndOrigin, ReadsPath, LacksNumber};
ghost use Rattle.announcements.specs.Reading.{ReadsOption, ReadsOptions, AreNoOptions, ReadsAdd};

use crate::communities::read_com;
use crate::numbers::next_number;
use crate::refusal::Refusal;
use attrs::{Clist, Origin, Path};
use bits_ip::{Addr, Prefix, parse_addr, parse_prefix};
use import_core::Given;
use std::alloc::Global;
use text::{expect_word, next_word};

/// What an `add` says: the net, the gateway, and the route where all its numbers fit.
#[derive(Drop)]
pub struct Announcement {
    pub net: Prefix,
    pub gateway: Addr,
    pub given: Option<Given>,
}

/// What an `add` says, behind this word.
pub fn read_add(alloc: Global, rest: &[u8]) -> Result<Announcement, Refusal>
    ensures { MatchResult result
        (λ said. ReadsAdd (words_of rest.now) said)
        (λ refusal. IfForm refusal ((net : Net) (given : Given)
        → IsAdd (words_of rest.now) net given → ⊥)) }
{
    let Some(via) = read_via(rest) else {
        return Err(Refusal::Form);
    };
    let found = read_path_and_origin(alloc, via.rest)?;
    let Some(options) = read_options(found.rest) else {
        return Err(Refusal::Form);
    };
    let coms = read_com(alloc, options.rest)?;
    let gateway = via.gateway;
    let given = given_of(gateway, found.path, found.origin, options, coms);
    Ok(Announcement {
        net: via.net,
        gateway,
        given,
    })
}

/// The route of these parts, where they fit.
fn given_of(
    gw: Addr,
    path: Option<Path>,
    origin: Origin,
    options: Options<'_>,
    coms: Option<Clist>,
) -> Option<Given>
    ensures { (given : Given) → gw ≡ given.gw → path ≡ kept path_fits given.path
        → origin ≡ given.origin → options.entry.med ≡ kept option_fits given.med
        → options.entry.lp ≡ kept option_fits given.lp
        → options.entry.igp ≡ kept option_fits given.igp → coms ≡ kept coms_fit given.coms
        → result ≡ kept given_fits given }
{
    let path = path?;
    let med = options.med?;
    let lp = options.lp?;
    let igp = options.igp?;
    let coms = coms?;
    Some(Given {
        gw,
        path,
        origin,
        med,
        lp,
        igp,
        coms,
    })
}

/// The net and the gateway of an `add`, and what follows the word `path`.
#[derive(Clone, Copy)]
struct Via<'a> {
    net: Prefix,
    gateway: Addr,
    rest: &'a [u8],
}

fn read_via(rest: &[u8]) -> Option<Via<'_>>
    ensures { MatchOption result
        ((net : Net) (gateway : Addr) (more : List (List ℕ))
        → IsVia (words_of rest.now) net gateway more → ⊥)
        (λ via. IsVia (words_of rest.now) via.net via.gateway (words_of via.rest.now)) }
{
    let (word, rest) = next_word(rest)?;
    let net = parse_prefix(word)?;
    let rest = expect_word(rest, b"via")?;
    let (word, rest) = next_word(rest)?;
    let gateway = parse_addr(word)?;
    let rest = expect_word(rest, b"path")?;
    Some(Via { net, gateway, rest })
}

/// The path, where it fits, and the origin of an `add`, and what follows them.
#[derive(Drop)]
struct PathAndOrigin<'a> {
    path: Option<Path>,
    origin: Origin,
    rest: &'a [u8],
}

fn read_path_and_origin(alloc: Global, rest: &[u8]) -> Result<PathAndOrigin<'_>, Refusal>
    ensures { MatchResult result
        (λ found. ReadsPath (words_of rest.now)
        found.path found.origin (words_of found.rest.now))
        (λ refusal. IfForm refusal ((path : List ℕ) (origin : Origin) (more : List (List ℕ))
        → IsPathAndOrigin (words_of rest.now) path origin more → ⊥)) }
{
    let (numbers, rest) = read_numbers(alloc, rest)?;
    let Some((origin, rest)) = read_origin(rest) else {
        return Err(Refusal::Form);
    };
    let path = path_of(numbers);
    Ok(PathAndOrigin { path, origin, rest })
}

/// The numbers read so far, and whether each fits 32 bits. If not, they say nothing.
#[derive(Drop)]
struct Numbers {
    numbers: Vec<u32>,
    fit: bool,
}

fn path_of(numbers: Numbers) -> Option<Path>
    ensures { (raw : List ℕ) → numbers.fit ≡ list_all fits raw
        → (numbers.fit ≡ true → numbers.numbers.items ≡ raw) → result ≡ kept path_fits raw }
{
    if numbers.fit {
        Path::try_from_vec(numbers.numbers)
    } else {
        None
    }
}

fn read_numbers(alloc: Global, text: &[u8]) -> Result<(Numbers, &[u8]), Refusal>
    ensures { MatchResult result
        (λ found. ReadsNumbers (words_of text.now) found.0.numbers.items found.0.fit
        (words_of found.1.now))
        (λ refusal. IfForm refusal ⊥) }
{
    let mut numbers = Numbers {
        numbers: Vec::new(alloc),
        fit: true,
    };
    let mut rest = text;
    while let Some((number, after)) = next_number(rest) {
        keep_number(&mut numbers, number)?;
        rest = after;
    }
    Ok((numbers, rest))
}

/// Puts a number behind those before, if it fits.
fn keep_number(numbers: &mut Numbers, number: Option<u32>) -> Result<(), Refusal>
    ensures { MatchResult result
        (λ _. KeepsNumber number numbers.old.numbers.items numbers.old.fit
        numbers.new.numbers.items numbers.new.fit)
        (λ refusal. refusal ≡ Refusal.Memory) }
{
    match number {
        Some(number) => numbers.numbers.push(number)?,
        None => numbers.fit = false,
    }
    Ok(())
}

fn read_origin(rest: &[u8]) -> Option<(Origin, &[u8])>
    ensures { MatchOption result
        ((origin : Origin) (more : List (List ℕ)) → IsOrigin (words_of rest.now) origin more → ⊥)
        (λ found. IsOrigin (words_of rest.now) found.0 (words_of found.1.now)) }
{
    let rest = expect_word(rest, b"origin")?;
    let (word, after) = next_word(rest)?;
    let origin = origin_of(word)?;
    Some((origin, after))
}

fn origin_of(word: &[u8]) -> Option<Origin>
    ensures { MatchOption result
        ((origin : Origin) → word.now ≡ origin_text origin → ⊥)
        (λ origin. word.now ≡ origin_text origin) }
{
    if word == b"igp".as_slice() {
        Some(Origin::Igp)
    } else if word == b"egp".as_slice() {
        Some(Origin::Egp)
    } else if word == b"incomplete".as_slice() {
        Some(Origin::Incomplete)
    } else {
        None
    }
}

/// The optional numbers of an `add`, each where it fits, and what follows them.
#[derive(Clone, Copy)]
struct Options<'a> {
    med: Option<Option<u32>>,
    lp: Option<Option<u32>>,
    igp: Option<Option<u32>>,
    rest: &'a [u8],
}

fn read_options(rest: &[u8]) -> Option<Options<'_>>
    ensures { MatchOption result
        (AreNoOptions (words_of rest.now))
        (λ found. ReadsOptions (words_of rest.now)
        found.med found.lp found.igp (words_of found.rest.now)) }
{
    let (med, rest) = next_option(rest, b"med")?;
    let (lp, rest) = next_option(rest, b"lp")?;
    let (igp, rest) = next_option(rest, b"igp")?;
    Some(Options { med, lp, igp, rest })
}

/// What follows the label and the number behind it, and all where the label doesn't come.
fn next_option<'a>(rest: &'a [u8], label: &[u8]) -> Option<(Option<Option<u32>>, &'a [u8])>
    ensures { MatchOption result
        (LacksNumber label.now (words_of rest.now))
        (λ found. ReadsOption label.now (words_of rest.now) found.0 (words_of found.1.now)) }
{
    match expect_word(rest, label) {
        Some(behind) => {
            let (number, after) = next_number(behind)?;
            Some((present(number), after))
        }
        None => Some((Some(None), rest)),
    }
}

/// An optional number that is there, where it fits.
fn present(number: Option<u32>) -> Option<Option<u32>>
    ensures { (n : ℕ) → number ≡ kept fits n → result ≡ kept option_fits (Some n) }
{
    match number {
        Some(number) => Some(Some(number)),
        None => None,
    }
}
