ghost use Rattle.std.specs.Prelude.{◌≡◌, ◌==◌, ◌<◌, ◌≤◌, ◌↔◌, ◌+◌, ◌*◌, ◌/◌, ◌^◌, ◌∷◌, ◌++◌, ◌&&◌, true, not, length, Err, IfOk, IsTrue, option_map};
ghost use Rattle.std.specs.List.{flat_map, list_any};
ghost use Rattle.rec_words.specs.Entries.{Spells, IsEntryWords};
ghost use Rattle.rec_words.specs.Reading.{addr_at, all_distinct, AreAsTold, coms_at, entry_at, entry_in, family_addr_at, front_in, Gives, head_at, head_in, last_at, listed, net_at, numbers_at, numbers_in, optional_at, optional_route_at, path_at, route_at, route_in, split_word, v4_at, v6_at, ways_at};
ghost use Rattle.rec_words.specs.declared.fault.WordsFault.TheVariants.{BadWords};

use crate::build::build_entry;
use crate::fault::{Misspelt, WordsFault};
use crate::parts::{EntryParts, Front, Head, Numbers, RouteParts, Ways};
use crate::shape::Shape;
use crate::word::{
    first_word, form_family, form_len, has_best, has_new, high_half, low_half, number_at,
};
use attrs::{JEntry, Src};
use bits_ip::{Addr, Prefix};
use std::alloc::Global;

/// The entry whose words these are. `BadWords` comes exactly where they are no entry's; `Memory`
/// only where they are.
pub fn get_words(alloc: Global, words: &[u64]) -> Result<JEntry, WordsFault>
    ensures found { IfOk result (λ entry. Spells entry words.now) }
    ensures refused { (result ≡ Err WordsFault.BadWords) ↔ (IsEntryWords words.now → ⊥) }
{
    match read_entry(words) {
        Ok(parts) => Ok(build_entry(alloc, &parts)?),
        Err(Misspelt) => Err(WordsFault::BadWords),
    }
}

/// What the words come to, without memory.
#[tactic(auto, unfolding(crate::specs::Reading::entry_at))]
fn read_entry(words: &[u64]) -> Result<EntryParts<'_>, Misspelt>
    ensures read { Gives entry_in result (entry_at words.now) }
    ensures told { IfOk result AreAsTold }
{
    if words.len() < 5 {
        return Err(Misspelt);
    }
    let (front, rest) = words.split_at(5);
    let front = read_front(words.len(), front)?;
    let (new, behind) = read_optional_route(front.has_new, rest)?;
    let (best, end) = read_optional_route(front.has_best, behind)?;
    if !end.is_empty() {
        return Err(Misspelt);
    }
    let is_new_best = is_one_route(&front, rest, behind);
    Ok(EntryParts {
        front,
        new,
        best,
        is_new_best,
    })
}

/// Whether these words are the others twice.
fn is_twice(half: &[u64], words: &[u64]) -> bool
    ensures { IsTrue result → words.now ≡ half.now ++ half.now }
{
    if words.len() / 2 != half.len() {
        return false;
    }
    let (front, back) = words.split_at(half.len());
    if front != half {
        return false;
    }
    back == half
}

/// Whether there are both routes, in the same words.
fn is_one_route(front: &Front, words: &[u64], behind: &[u64]) -> bool
    ensures new { IsTrue result → front.now.has_new ≡ true }
    ensures best { IsTrue result → front.now.has_best ≡ true }
    ensures twice { IsTrue result → words.now ≡ behind.now ++ behind.now }
{
    if !front.has_new {
        return false;
    }
    if !front.has_best {
        return false;
    }
    is_twice(behind, words)
}

/// The front of an entry of so many words.
#[tactic(auto, unfolding(crate::specs::Reading::front_in))]
fn read_front(count: usize, words: &[u64]) -> Result<Front, Misspelt>
    requires count { count < 2 ^ 63 }
    requires five { length words.now ≡ 5 }
    ensures { Gives (λ front. front) result (front_in count words.now) }
{
    let has_new = has_new(words[0]);
    let has_best = has_best(words[0]);
    if first_word(count, has_new, has_best) != words[0] {
        return Err(Misspelt);
    }
    let net = read_net(words[1], words[2], words[3])?;
    let num = number_at(words[4])?;
    Ok(Front {
        has_new,
        has_best,
        net,
        num,
    })
}

/// A net: its length and family, and the two words of its address.
#[tactic(auto, unfolding(crate::specs::Reading::net_at))]
fn read_net(form: u64, high: u64, low: u64) -> Result<Prefix, Misspelt>
    ensures { Gives (λ net. net) result (net_at form high low) }
{
    let addr = read_family_addr(form_family(form), high, low)?;
    Prefix::make(addr, form_len(form)).map_err(|_| Misspelt)
}

#[tactic(auto, unfolding(crate::specs::Reading::family_addr_at))]
fn read_family_addr(family: u64, high: u64, low: u64) -> Result<Addr, Misspelt>
    ensures { Gives (λ addr. addr) result (family_addr_at family high low) }
{
    if family == 4 {
        if high != 0 {
            return Err(Misspelt);
        }
        return Ok(Addr::V4(number_at(low)?));
    }
    if family == 6 {
        return Ok(Addr::V6(v6_number(high, low)));
    }
    Err(Misspelt)
}

/// The number of an IPv6 address.
fn v6_number(high: u64, low: u64) -> u128
    ensures { result ≡ high * 2 ^ 64 + low }
{
    u128::from(high) * 0x1_0000_0000_0000_0000 + u128::from(low)
}

#[tactic(auto, unfolding(crate::specs::Reading::optional_route_at))]
fn read_optional_route(
    is_there: bool,
    words: &[u64],
) -> Result<(Option<RouteParts<'_>>, &[u64]), Misspelt>
    ensures { Gives (λ x. (option_map route_in x.0, x.1.now)) result
        (optional_route_at is_there words.now) }
{
    if !is_there {
        return Ok((None, words));
    }
    let (route, rest) = read_route(words)?;
    Ok((Some(route), rest))
}

#[tactic(auto, unfolding(crate::specs::Reading::route_at))]
fn read_route(words: &[u64]) -> Result<(RouteParts<'_>, &[u64]), Misspelt>
    ensures { Gives (λ x. (route_in x.0, x.1.now)) result (route_at words.now) }
{
    let (head, rest) = read_head(words)?;
    let (ways, rest) = read_ways(rest)?;
    let (path, rest) = read_path(head.shape.path_len, rest)?;
    let (coms, rest) = read_coms(head.shape.com_len, rest)?;
    let route = RouteParts {
        head,
        ways,
        path,
        coms,
    };
    Ok((route, rest))
}

#[tactic(auto, unfolding(crate::specs::Reading::head_at))]
fn read_head(words: &[u64]) -> Result<(Head, &[u64]), Misspelt>
    ensures { Gives (λ x. (x.0, x.1.now)) result (head_at words.now) }
{
    if words.len() < 5 {
        return Err(Misspelt);
    }
    let (front, rest) = words.split_at(5);
    let head = head_in(front)?;
    Ok((head, rest))
}

#[tactic(auto, unfolding(crate::specs::Reading::head_in))]
fn head_in(words: &[u64]) -> Result<Head, Misspelt>
    requires { length words.now ≡ 5 }
    ensures { Gives (λ head. head) result (head_in words.now) }
{
    let shape = Shape::of_word(words[2])?;
    let med = read_optional(shape.has_med, high_half(words[3]))?;
    let lp = read_optional(shape.has_lp, low_half(words[4]))?;
    let igp = read_optional(shape.has_igp, high_half(words[4]))?;
    Ok(Head {
        src: Src {
            num: low_half(words[0]),
            def_med: high_half(words[0]),
            def_lp: low_half(words[1]),
        },
        pref: high_half(words[1]),
        shape,
        peer_id: low_half(words[3]),
        med,
        lp,
        igp,
    })
}

/// A number that may be missing, which is 0 then.
fn read_optional(is_there: bool, number: u32) -> Result<Option<u32>, Misspelt>
    ensures { Gives (λ found. found) result (optional_at is_there number) }
{
    if is_there {
        return Ok(Some(number));
    }
    if number != 0 {
        return Err(Misspelt);
    }
    Ok(None)
}

#[tactic(auto, unfolding(crate::specs::Reading::ways_at))]
fn read_ways(words: &[u64]) -> Result<(Ways, &[u64]), Misspelt>
    ensures { Gives (λ x. (x.0, x.1.now)) result (ways_at words.now) }
{
    let (gw, rest) = read_addr(words)?;
    let (sender, rest) = read_addr(rest)?;
    let (next_hop, rest) = read_addr(rest)?;
    let ways = Ways {
        gw,
        sender,
        next_hop,
    };
    Ok((ways, rest))
}

/// An address behind the number of its family, or none behind 0.
#[tactic(auto, unfolding(crate::specs::Reading::addr_at))]
fn read_addr(words: &[u64]) -> Result<(Option<Addr>, &[u64]), Misspelt>
    ensures { Gives (λ x. (x.0, x.1.now)) result (addr_at words.now) }
{
    let [family, rest @ ..] = words else {
        return Err(Misspelt);
    };
    if *family == 0 {
        Ok((None, rest))
    } else if *family == 4 {
        read_v4(rest)
    } else if *family == 6 {
        read_v6(rest)
    } else {
        Err(Misspelt)
    }
}

#[tactic(auto, unfolding(crate::specs::Reading::v4_at))]
fn read_v4(words: &[u64]) -> Result<(Option<Addr>, &[u64]), Misspelt>
    ensures { Gives (λ x. (x.0, x.1.now)) result (v4_at words.now) }
{
    let [word, rest @ ..] = words else {
        return Err(Misspelt);
    };
    let number = number_at(*word)?;
    Ok((Some(Addr::V4(number)), rest))
}

#[tactic(auto, unfolding(crate::specs::Reading::v6_at))]
fn read_v6(words: &[u64]) -> Result<(Option<Addr>, &[u64]), Misspelt>
    ensures { Gives (λ x. (x.0, x.1.now)) result (v6_at words.now) }
{
    match words {
        [high, low, rest @ ..] => Ok((Some(Addr::V6(v6_number(*high, *low))), rest)),
        _ => Err(Misspelt),
    }
}

#[tactic(auto, unfolding(crate::specs::Reading::path_at))]
fn read_path(count: u8, words: &[u64]) -> Result<(Numbers<'_>, &[u64]), Misspelt>
    ensures { Gives (λ x. (numbers_in x.0, x.1.now)) result (path_at count words.now) }
{
    if count > 120 {
        return Err(Misspelt);
    }
    read_numbers(count, words)
}

#[tactic(auto, unfolding(crate::specs::Reading::coms_at))]
fn read_coms(count: u8, words: &[u64]) -> Result<(Numbers<'_>, &[u64]), Misspelt>
    ensures { Gives (λ x. (numbers_in x.0, x.1.now)) result (coms_at count words.now) }
{
    if count > 64 {
        return Err(Misspelt);
    }
    let (coms, rest) = read_numbers(count, words)?;
    if !are_distinct(&coms) {
        return Err(Misspelt);
    }
    Ok((coms, rest))
}

/// As many numbers.
#[tactic(auto, unfolding(crate::specs::Reading::numbers_at))]
fn read_numbers(count: u8, words: &[u64]) -> Result<(Numbers<'_>, &[u64]), Misspelt>
    ensures { Gives (λ x. (numbers_in x.0, x.1.now)) result (numbers_at count words.now) }
{
    let pairs = usize::from(count / 2);
    if words.len() < pairs {
        return Err(Misspelt);
    }
    let (pairs, rest) = words.split_at(pairs);
    let (last, rest) = read_last(count % 2 == 1, rest)?;
    Ok((Numbers { pairs, last }, rest))
}

/// A number alone in its word, where there is one.
#[tactic(auto, unfolding(crate::specs::Reading::last_at))]
fn read_last(is_there: bool, words: &[u64]) -> Result<(Option<u32>, &[u64]), Misspelt>
    ensures { Gives (λ x. (x.0, x.1.now)) result (last_at is_there words.now) }
{
    if !is_there {
        return Ok((None, words));
    }
    let [word, rest @ ..] = words else {
        return Err(Misspelt);
    };
    let number = number_at(*word)?;
    Ok((Some(number), rest))
}

/// Whether a number is one of these.
fn is_among(number: u32, pairs: &[u64], last: Option<u32>) -> bool
    ensures { result
        ≡ list_any (λ other. other == number) (flat_map split_word pairs.now ++ listed last) }
{
    let mut left = pairs;
    while let [word, rest @ ..] = left {
        if low_half(*word) == number || high_half(*word) == number {
            return true;
        }
        left = rest;
    }
    last == Some(number)
}

/// Whether a number of this word stands in it twice or once more behind it.
fn is_repeated(word: u64, pairs: &[u64], last: Option<u32>) -> bool
    ensures { all_distinct (flat_map split_word (word ∷ pairs.now) ++ listed last)
        ≡ not result && all_distinct (flat_map split_word pairs.now ++ listed last) }
{
    let low = low_half(word);
    let high = high_half(word);
    low == high || is_among(low, pairs, last) || is_among(high, pairs, last)
}

/// No number is there twice.
fn are_distinct(numbers: &Numbers) -> bool
    ensures { result ≡ all_distinct (numbers_in numbers.now) }
{
    let mut left = numbers.pairs;
    while let [word, rest @ ..] = left {
        if is_repeated(*word, rest, numbers.last) {
            return false;
        }
        left = rest;
    }
    true
}
