ghost use Rattle.std.specs.Prelude.{◌≡◌, ◌+◌, ◌/◌, ◌%◌, ◌^◌, ◌++◌, ◌∷◌, ◌<◌, ◌≤◌, ◌==◌, length, OnOk, false};
ghost use Rattle.std.specs.Fmt.{digits, digit_glyph};
ghost use Rattle.std.specs.List.{flat_map, prefix_len};
ghost use Rattle.bits_ip.specs.Parts.{behind_colon};
ghost use Rattle.bits_ip.specs.Text.{v6_text, groups, colon_text, short_text, longest_run, run_start};
ghost use Rattle.bits_ip.specs.Out.{Kept};

use crate::TextOut;

/// Appends an IPv6 address as RFC 5952, section 4, says.
pub(crate) fn write_v6<W: TextOut>(number: u128, out: &mut W) -> Result<(), W::Fault>
    ensures written { OnOk result (W.written out.new ≡ W.written out.old ++ v6_text number) }
    ensures kept { Kept W.follows out.old out.new }
{
    let groups = groups_of(number);
    let run = longest_run(&groups);
    if run <= 1 {
        return write_groups(&groups, out);
    }
    let start = run_start(run, &groups);
    write_without(start, run, &groups, out)
}

/// Groups with two colons in place of a part of them.
fn write_without<W: TextOut>(
    start: usize,
    count: usize,
    groups: &[u16],
    out: &mut W,
) -> Result<(), W::Fault>
    requires { start + count ≤ length groups.now }
    ensures written { OnOk result
        (W.written out.new ≡ W.written out.old ++ short_text start count groups.now) }
    ensures kept { Kept W.follows out.old out.new }
{
    write_groups(&groups[..start], out)?;
    out.put(b"::")?;
    write_groups(&groups[start + count..], out)
}

fn groups_of(number: u128) -> [u16; 8]
    ensures { result ≡ groups number }
{
    [
        group_before(number, 112),
        group_before(number, 96),
        group_before(number, 80),
        group_before(number, 64),
        group_before(number, 48),
        group_before(number, 32),
        group_before(number, 16),
        group_before(number, 0),
    ]
}

/// The sixteen bits before the last so many.
fn group_before(number: u128, bits: u32) -> u16
    requires { bits < 128 }
    ensures { result ≡ number / 2 ^ bits % 2 ^ 16 }
{
    ((number >> bits) % 0x1_0000) as u16
}

/// How many zero groups stand at the front.
fn zero_run(groups: &[u16]) -> usize
    ensures { result ≡ prefix_len (λ group. group == 0) groups.now }
{
    groups.iter().take_while(|group| **group == 0).count()
}

/// How many stand in the longest run of zero groups.
fn longest_run(groups: &[u16]) -> usize
    ensures { result ≡ longest_run groups.now }
{
    let mut longest = 0;
    for start in 0..groups.len() {
        longest = longest.max(zero_run(&groups[start..]));
    }
    longest
}

/// Where the first of the longest runs begins.
fn run_start(run: usize, groups: &[u16]) -> usize
    requires { run ≡ longest_run groups.now }
    ensures start { result ≡ run_start run groups.now }
    ensures within { result + run ≤ length groups.now }
{
    for start in 0..groups.len() {
        if zero_run(&groups[start..]) == run {
            return start;
        }
    }
    groups.len()
}

/// Groups with a colon between each two.
fn write_groups<W: TextOut>(groups: &[u16], out: &mut W) -> Result<(), W::Fault>
    ensures written { OnOk result (W.written out.new ≡ W.written out.old ++ colon_text groups.now) }
    ensures kept { Kept W.follows out.old out.new }
{
    match groups {
        [] => Ok(()),
        [first, rest @ ..] => {
            write_hex(*first, out)?;
            write_more_groups(rest, out)
        }
    }
}

/// Groups with a colon before each.
fn write_more_groups<W: TextOut>(groups: &[u16], out: &mut W) -> Result<(), W::Fault>
    ensures written { OnOk result
        (W.written out.new ≡ W.written out.old ++ flat_map behind_colon groups.now) }
    ensures kept { Kept W.follows out.old out.new }
{
    for group in groups {
        out.put(b":")?;
        write_hex(*group, out)?;
    }
    Ok(())
}

/// Hexadecimal digits in small letters, without leading zeros.
fn write_hex<W: TextOut>(number: u16, out: &mut W) -> Result<(), W::Fault>
    ensures written { OnOk result
        (W.written out.new ≡ W.written out.old ++ digits 16 false number) }
    ensures kept { Kept W.follows out.old out.new }
{
    if number >= 16 {
        write_hex(number / 16, out)?;
    }
    out.put(&[hex_digit((number % 16) as u8)])
}

fn hex_digit(value: u8) -> u8
    requires { value < 16 }
    ensures { result ≡ digit_glyph false value }
{
    if value < 10 {
        b'0' + value
    } else {
        b'a' + (value - 10)
    }
}
