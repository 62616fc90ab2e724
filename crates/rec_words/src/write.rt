ghost use Rattle.std.specs.Prelude.{◌≡◌, ◌≤◌, ◌+◌, ◌*◌, ◌++◌, ◌∷◌, [], length, map, IfSome, option_copied};
ghost use Rattle.std.specs.List.{AllByRecursion};
ghost use Rattle.jour_rule.specs.Cells.{IsWhole};
ghost use Rattle.rec_words.specs.Spelling.{addr_words, head_words, net_words, number_words, optional_route_words, pair_number, route_words};
ghost use Rattle.rec_words.specs.Entries.{AreHeadNumbers, IsAddr, IsNet, IsNumber, IsPair, IsRoute, Spells};

use crate::counts::entry_len;
use crate::shape::Shape;
use crate::word::{family_number, first_word, form_word, high_word, joined, low_word, pair_number};
use attrs::{JEntry, Route};
use bits_ip::{Addr, Prefix};
use jour_rule::buf::Buf;

/// Makes the buffer's words those of the entry. Takes no memory.
pub fn put_words(entry: &JEntry, buf: &mut Buf)
    ensures spelled { Spells entry.now buf.new }
    ensures whole { IsWhole buf.new }
{
    let count = entry_len(entry);
    buf.clear();
    buf.push(first_word(count, entry.new.is_some(), entry.best.is_some()));
    put_net(&entry.net, buf);
    buf.push(u64::from(entry.num));
    put_optional_route(entry.new.as_ref(), buf);
    put_optional_route(entry.best.as_ref(), buf);
}

fn put_net(net: &Prefix, buf: &mut Buf)
    requires { length buf.old ≤ 253 }
    ensures written { buf.new ≡ buf.old ++ net_words net.now }
    ensures few { length buf.new ≡ length buf.old + 3 }
    ensures is { IsNet net.now }
{
    let addr = net.addr();
    buf.push(form_word(net.len(), family_number(addr)));
    buf.push(high_word(addr));
    buf.push(low_word(addr));
}

fn put_optional_route(route: Option<&Route>, buf: &mut Buf)
    requires { length buf.old ≤ 150 }
    ensures written { buf.new ≡ buf.old ++ optional_route_words (option_copied route.entry) }
    ensures few { length buf.new ≤ length buf.old + 106 }
    ensures is { IfSome (option_copied route.entry) IsRoute }
{
    match route {
        None => {}
        Some(route) => put_route(route, buf),
    }
}

fn put_route(route: &Route, buf: &mut Buf)
    requires { length buf.old ≤ 150 }
    ensures written { buf.new ≡ buf.old ++ route_words route.now }
    ensures few { length buf.new ≤ length buf.old + 106 }
    ensures is { IsRoute route.now }
{
    let attrs = &*route.attrs;
    put_head(route, buf);
    put_addr(attrs.gw, buf);
    put_addr(attrs.sender, buf);
    put_addr(attrs.next_hop, buf);
    put_numbers(attrs.path.as_slice(), buf);
    put_pairs(attrs.coms.as_slice(), buf);
}

/// The words before the addresses.
fn put_head(route: &Route, buf: &mut Buf)
    requires { length buf.old ≤ 251 }
    ensures written { buf.new ≡ buf.old ++ head_words route.now }
    ensures few { length buf.new ≡ length buf.old + 5 }
    ensures is { AreHeadNumbers route.now }
{
    let attrs = &*route.attrs;
    buf.push(joined(route.src.num, route.src.def_med));
    buf.push(joined(route.src.def_lp, attrs.pref));
    buf.push(Shape::of_attrs(attrs).word());
    buf.push(joined(attrs.peer_id, attrs.med.unwrap_or(0)));
    buf.push(joined(attrs.lp.unwrap_or(0), attrs.igp.unwrap_or(0)));
}

fn put_addr(addr: Option<Addr>, buf: &mut Buf)
    requires { length buf.old ≤ 253 }
    ensures written { buf.new ≡ buf.old ++ addr_words addr }
    ensures few { length buf.new ≤ length buf.old + 3 }
    ensures is { IfSome addr IsAddr }
{
    let Some(addr) = addr else {
        buf.push(0);
        return;
    };
    buf.push(family_number(addr));
    if let Addr::V6(_) = addr {
        buf.push(high_word(addr));
    }
    buf.push(low_word(addr));
}

/// Two numbers in each word.
fn put_numbers(numbers: &[u32], buf: &mut Buf)
    requires { 2 * length buf.old + length numbers.now ≤ 512 }
    ensures written { buf.new ≡ buf.old ++ number_words numbers.now }
    ensures few { 2 * length buf.new ≤ 2 * length buf.old + length numbers.now + 1 }
    ensures are { AllByRecursion IsNumber numbers.now }
{
    let mut left = numbers;
    while let [low, high, rest @ ..] = left {
        buf.push(joined(*low, *high));
        left = rest;
    }
    if let [last] = left {
        buf.push(u64::from(*last));
    }
}

/// Two communities in each word.
fn put_pairs(pairs: &[(u16, u16)], buf: &mut Buf)
    requires { 2 * length buf.old + length pairs.now ≤ 512 }
    ensures written { buf.new ≡ buf.old ++ number_words (map pair_number pairs.now) }
    ensures few { 2 * length buf.new ≤ 2 * length buf.old + length pairs.now + 1 }
    ensures are { AllByRecursion IsPair pairs.now }
{
    let mut left = pairs;
    while let [low, high, rest @ ..] = left {
        buf.push(joined(pair_number(*low), pair_number(*high)));
        left = rest;
    }
    if let [last] = left {
        buf.push(u64::from(pair_number(*last)));
    }
}
