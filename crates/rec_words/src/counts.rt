//! How many words entries have.
ghost use Rattle.std.specs.Prelude.{◌≡◌, ◌≤◌, ◌+◌, ◌/◌, suc, length, option_copied};
ghost use Rattle.rec_words.specs.Spelling.{addr_words, body_words, optional_route_words, route_words};

use attrs::{JEntry, Route};
use bits_ip::Addr;

pub(crate) fn entry_len(entry: &JEntry) -> usize
    ensures len { result ≡ suc (length (body_words entry.now)) }
    ensures few { result ≤ 217 }
{
    5 + optional_route_len(entry.new.as_ref()) + optional_route_len(entry.best.as_ref())
}

fn optional_route_len(route: Option<&Route>) -> usize
    ensures len { result ≡ length (optional_route_words (option_copied route.entry)) }
    ensures few { result ≤ 106 }
{
    match route {
        None => 0,
        Some(route) => route_len(route),
    }
}

fn route_len(route: &Route) -> usize
    ensures len { result ≡ length (route_words route.now) }
    ensures few { result ≤ 106 }
{
    let attrs = &*route.attrs;
    let addrs = addr_len(attrs.gw) + addr_len(attrs.sender) + addr_len(attrs.next_hop);
    let path = numbers_len(attrs.path.as_slice().len());
    let coms = numbers_len(attrs.coms.as_slice().len());
    5 + addrs + path + coms
}

fn addr_len(addr: Option<Addr>) -> usize
    ensures len { result ≡ length (addr_words addr) }
    ensures few { result ≤ 3 }
{
    match addr {
        None => 1,
        Some(Addr::V4(_)) => 2,
        Some(Addr::V6(_)) => 3,
    }
}

/// How many words numbers have, of which there are so many.
fn numbers_len(count: usize) -> usize
    requires { count ≤ 120 }
    ensures { result ≡ (count + 1) / 2 }
{
    (count + 1) / 2
}
