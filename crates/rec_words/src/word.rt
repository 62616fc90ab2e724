//! The numbers that share a word.
ghost use Rattle.std.specs.Prelude.{◌≡◌, ◌<◌, ◌≤◌, ◌+◌, ◌/◌, ◌%◌, ◌^◌};
ghost use Rattle.bits_ip.specs.Address.{number_of};
ghost use Rattle.rec_words.specs.Spelling.{at_bit, family_number, first_word, joined, pair_number};
ghost use Rattle.rec_words.specs.Entries.{IsPair};
ghost use Rattle.rec_words.specs.Reading.{bit_at, Gives, high_half, low_half, number_at, pair_of};

use crate::fault::Misspelt;
use bits_ip::Addr;

/// Two numbers in one word, the first in the low half.
pub(crate) fn joined(low: u32, high: u32) -> u64
    ensures { result ≡ joined low high }
{
    u64::from(low) + u64::from(high) * 0x1_0000_0000
}

pub(crate) fn low_half(word: u64) -> u32
    ensures { result ≡ low_half word }
{
    (word % 0x1_0000_0000) as u32
}

pub(crate) fn high_half(word: u64) -> u32
    ensures { result ≡ high_half word }
{
    (word / 0x1_0000_0000) as u32
}

/// The number of a word whose high half is spare.
pub(crate) fn number_at(word: u64) -> Result<u32, Misspelt>
    ensures { Gives (λ number. number) result (number_at word) }
{
    u32::try_from(word).map_err(|_| Misspelt)
}

/// A community as a number.
pub(crate) fn pair_number(pair: (u16, u16)) -> u32
    ensures number { result ≡ pair_number pair }
    ensures is { IsPair pair }
{
    u32::from(pair.0) * 0x1_0000 + u32::from(pair.1)
}

pub(crate) fn pair_of(number: u32) -> (u16, u16)
    ensures { result ≡ pair_of number }
{
    ((number / 0x1_0000) as u16, (number % 0x1_0000) as u16)
}

/// The first word of an entry: how many words it has, and which routes.
pub(crate) fn first_word(count: usize, has_new: bool, has_best: bool) -> u64
    requires { count < 2 ^ 63 }
    ensures { result ≡ first_word count has_new has_best }
{
    count as u64 + u64::from(has_new) * 0x1_0000 + u64::from(has_best) * 0x2_0000
}

/// The version of IP.
pub(crate) fn family_number(addr: Addr) -> u64
    ensures number { result ≡ family_number addr }
    ensures small { result ≤ 6 }
{
    match addr {
        Addr::V4(_) => 4,
        Addr::V6(_) => 6,
    }
}

pub(crate) fn high_word(addr: Addr) -> u64
    ensures { result ≡ number_of addr / 2 ^ 64 }
{
    match addr {
        Addr::V4(_) => 0,
        Addr::V6(number) => (number / 0x1_0000_0000_0000_0000) as u64,
    }
}

pub(crate) fn low_word(addr: Addr) -> u64
    ensures { result ≡ number_of addr % 2 ^ 64 }
{
    match addr {
        Addr::V4(number) => u64::from(number),
        Addr::V6(number) => (number % 0x1_0000_0000_0000_0000) as u64,
    }
}

/// Whether an entry that begins with this word has a new route.
pub(crate) fn has_new(first: u64) -> bool
    ensures { result ≡ bit_at 16 first }
{
    first / 0x1_0000 % 2 == 1
}

/// Whether an entry that begins with this word has a best route.
pub(crate) fn has_best(first: u64) -> bool
    ensures { result ≡ bit_at 17 first }
{
    first / 0x2_0000 % 2 == 1
}

/// A net's length and the version of IP in one word.
pub(crate) fn form_word(len: u8, family: u64) -> u64
    requires { family ≤ 6 }
    ensures { result ≡ len + at_bit 8 family }
{
    u64::from(len) + family * 0x100
}

pub(crate) fn form_len(form: u64) -> u8
    ensures { result ≡ form % 256 }
{
    (form % 0x100) as u8
}

pub(crate) fn form_family(form: u64) -> u64
    ensures { result ≡ form / 256 }
{
    form / 0x100
}
