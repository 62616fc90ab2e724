ghost use Rattle.std.specs.Prelude.{◌≡◌, ◌-◌, ◌/◌, ◌%◌, ◌^◌, ◌≤◌, ◌↔◌, IsTrue};
ghost use Rattle.bits_ip.specs.Address.{family_of, number_of, width_of};
ghost use Rattle.bits_ip.specs.Prefix.{front_bits};

/// The two families of internet addresses.
#[derive(Clone, Copy, Debug, PartialEq, Eq, Hash)]
pub enum Family {
    V4,
    V6,
}

/// An address. Its number has the address's first bit as the greatest.
#[derive(Clone, Copy, Debug, PartialEq, Eq, Hash)]
pub enum Addr {
    V4(u32),
    V6(u128),
}

impl Addr {
    pub(crate) fn family(&self) -> Family
        ensures { result ≡ family_of self.now }
    {
        match self {
            Addr::V4(_) => Family::V4,
            Addr::V6(_) => Family::V6,
        }
    }

    /// The address as a number.
    pub(crate) fn number(&self) -> u128
        ensures { result ≡ number_of self.now }
    {
        match self {
            Addr::V4(number) => u128::from(*number),
            Addr::V6(number) => *number,
        }
    }

    /// How many bits an address of this family has.
    pub(crate) fn width(&self) -> u8
        ensures { result ≡ width_of self.now }
    {
        match self {
            Addr::V4(_) => 32,
            Addr::V6(_) => 128,
        }
    }

    /// The first bits, as many as the length says.
    pub(crate) fn front_bits(&self, len: u8) -> u128
        ensures { result ≡ front_bits self.now len }
    {
        without_last(self.number(), u32::from(self.width().saturating_sub(len)))
    }

    /// Each bit behind the length is zero.
    pub(crate) fn ends_at(&self, len: u8) -> bool
        ensures { IsTrue result ↔ (number_of self.now % 2 ^ (width_of self.now - len) ≡ 0) }
    {
        ends_in_zeros(self.number(), u32::from(self.width().saturating_sub(len)))
    }
}

/// The number without its last bits.
fn without_last(number: u128, bits: u32) -> u128
    requires { bits ≤ 128 }
    ensures { result ≡ number / 2 ^ bits }
{
    number.checked_shr(bits).unwrap_or(0)
}

/// The last bits of the number are zero.
fn ends_in_zeros(number: u128, bits: u32) -> bool
    requires { bits ≤ 128 }
    ensures { IsTrue result ↔ (number % 2 ^ bits ≡ 0) }
{
    match 1u128.checked_shl(bits) {
        Some(unit) => number & (unit - 1) == 0,
        None => number == 0,
    }
}
