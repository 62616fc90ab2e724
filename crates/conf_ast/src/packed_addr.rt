ghost use Rattle.std.specs.Prelude.{◌≡◌};
ghost use Rattle.bits_ip.specs.Address.{width_of};

use bits_ip::{Addr, Prefix};
use std::fmt::{self, Debug, Formatter, Write};
use std::marker::Model;

/// An address in 20 bytes, as the prefix that holds it alone. An `Addr` takes 32 of them, aligned
/// to 16, and a word with one in it 48.
#[derive(Clone, Copy)]
pub struct PackedAddr {
    net: Prefix,
}

impl Model for PackedAddr {
    ghost use Rattle.bits_ip.specs.declared.address.Addr.{Addr};
    ghost use Rattle.conf_ast.specs.Packed.{addr_in, packed, IsPacked, packed_is};

    ghost Value = { Addr };

    ghost view = { addr_in };

    ghost invariant = { IsPacked };

    ghost inverse = { packed };

    ghost inverse_ok = { λ p is. packed_is p is };
}

fn width(addr: Addr) -> u8
    ensures { result ≡ width_of addr }
{
    match addr {
        Addr::V4(_) => 32,
        Addr::V6(_) => 128,
    }
}

impl PackedAddr {
    pub fn of(addr: Addr) -> PackedAddr
        ensures { result ≡ addr }
    {
        match Prefix::make(addr, width(addr)) {
            Ok(net) => PackedAddr { net },
            Err(_) => unreachable!(),
        }
    }

    pub fn addr(&self) -> Addr
        ensures { result ≡ self.now }
    {
        self.net.addr()
    }
}

impl Debug for PackedAddr {
    fn fmt<W: Write>(&self, f: &mut Formatter<W>) -> fmt::Result {
        self.addr().fmt(f)
    }
}
