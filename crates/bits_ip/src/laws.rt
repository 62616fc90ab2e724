ghost use Rattle.std.specs.Prelude.{◌≡◌, ◌<◌, ◌^◌, ℕ, List};
ghost use Rattle.bits_ip.specs.declared.address.Addr.{Addr};
ghost use Rattle.bits_ip.specs.Address.{number_of, width_of};
ghost use Rattle.bits_ip.specs.Prefix.{Net, IsPrefix};
ghost use Rattle.bits_ip.specs.Text.{addr_text, groups, net_text, v6_text, IsAddrText, IsNetText, IsShortText};

/// A text spells one address.
pub fn text_spells_one_addr()
    ensures { (text : List ℕ) (a b : Addr) → IsAddrText text a → IsAddrText text b → a ≡ b }
{}

/// A text spells one prefix.
pub fn text_spells_one_prefix()
    ensures { (text : List ℕ) (a b : Net) → IsNetText text a → IsNetText text b → a ≡ b }
{}

/// What is written of an IPv6 address is the short text of RFC 5952, section 4.2.
pub fn written_v6_is_short()
    ensures { (n : ℕ) → IsShortText (v6_text n) (groups n) }
{}

/// What is written of an address is read as this address.
pub fn written_addr_is_read()
    ensures { (addr : Addr) → number_of addr < 2 ^ width_of addr
        → IsAddrText (addr_text addr) addr }
{}

/// What is written of a prefix is read as this prefix.
pub fn written_prefix_is_read()
    ensures { (net : Net) → number_of net.addr < 2 ^ width_of net.addr → IsPrefix net.addr net.len
        → IsNetText (net_text net) net }
{}
