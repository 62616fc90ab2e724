//! What each channel did in a phase.
ghost use Rattle.std.specs.Prelude.{◌≡◌, ◌++◌, ◌∷◌, codes, decimal, [], if◌then◌else◌, OnOk};
ghost use Rattle.std.specs.List.{flat_map};
ghost use Rattle.bits_ip.specs.Out.{Kept};
ghost use Rattle.report.specs.Report.{again_text, channel_text, line1, log_item_text, sending_text, value_text};
ghost use Rattle.report.specs.ReportParts.{names_in};

use crate::phase::{ChannelReport, ProtocolReport};
use crate::place::write_key;
use attrs::{Attrs, Shared, append_attrs};
use bits_ip::{TextOut, write_number};
use export_core::{LogItem, Sending};

/// Appends each channel's log of a phase.
pub(crate) fn write_channels<W: TextOut>(
    protocols: &[ProtocolReport],
    channels: &[ChannelReport],
    out: &mut W,
) -> Result<(), W::Fault>
    ensures written { OnOk result
        (W.written out.new ≡ W.written out.old
        ++ flat_map (channel_text (names_in protocols.now)) channels.now) }
    ensures kept { Kept W.follows out.old out.new }
{
    for channel in channels {
        write_channel(protocols, channel, out)?;
    }
    Ok(())
}

fn write_channel<W: TextOut>(
    protocols: &[ProtocolReport],
    channel: &ChannelReport,
    out: &mut W,
) -> Result<(), W::Fault>
    ensures written { OnOk result
        (W.written out.new ≡ W.written out.old
        ++ channel_text (names_in protocols.now) channel.now) }
    ensures kept { Kept W.follows out.old out.new }
{
    out.put(b"channel ")?;
    out.put(channel.name.as_slice())?;
    out.put(b"\n")?;
    write_items(protocols, channel.pipe, channel.items.as_slice(), out)
}

fn write_items<W: TextOut>(
    protocols: &[ProtocolReport],
    pipe: bool,
    items: &[LogItem],
    out: &mut W,
) -> Result<(), W::Fault>
    ensures written { OnOk result
        (W.written out.new ≡ W.written out.old
        ++ flat_map (λ item. line1 (log_item_text (names_in protocols.now) pipe item)) items.now) }
    ensures kept { Kept W.follows out.old out.new }
{
    for item in items {
        out.put(b"\t")?;
        write_item(protocols, pipe, item, out)?;
        out.put(b"\n")?;
    }
    Ok(())
}

fn write_item<W: TextOut>(
    protocols: &[ProtocolReport],
    pipe: bool,
    item: &LogItem,
    out: &mut W,
) -> Result<(), W::Fault>
    ensures written { OnOk result
        (W.written out.new ≡ W.written out.old
        ++ log_item_text (names_in protocols.now) pipe item.now) }
    ensures kept { Kept W.follows out.old out.new }
{
    match item {
        LogItem::Up(position) => write_up(*position, out),
        LogItem::Down => out.put(b"down"),
        LogItem::Reload => out.put(b"reload"),
        LogItem::Sent(sending) => write_sending(protocols, pipe, sending, out),
    }
}

fn write_up<W: TextOut>(position: u64, out: &mut W) -> Result<(), W::Fault>
    ensures written { OnOk result
        (W.written out.new ≡ W.written out.old ++ codes "up " ++ decimal position) }
    ensures kept { Kept W.follows out.old out.new }
{
    out.put(b"up ")?;
    write_number(position, out)
}

fn write_sending<W: TextOut>(
    protocols: &[ProtocolReport],
    pipe: bool,
    sending: &Sending,
    out: &mut W,
) -> Result<(), W::Fault>
    ensures written { OnOk result
        (W.written out.new ≡ W.written out.old
        ++ sending_text (names_in protocols.now) pipe sending.now) }
    ensures kept { Kept W.follows out.old out.new }
{
    write_when(sending.again, sending.at, out)?;
    write_key(protocols, pipe, &sending.key, out)?;
    write_value(&sending.value, out)
}

/// Whether the value is sent once more, and the position at which it stood, with a space behind it.
fn write_when<W: TextOut>(again: bool, at: u64, out: &mut W) -> Result<(), W::Fault>
    ensures written { OnOk result
        (W.written out.new ≡ W.written out.old ++ again_text again ++ decimal at ++ 32 ∷ []) }
    ensures kept { Kept W.follows out.old out.new }
{
    out.put(again_word(again).as_bytes())?;
    write_number(at, out)?;
    out.put(b" ")
}

fn again_word(again: bool) -> &'static str
    ensures { result.now ≡ again_text again }
{
    if again { "again " } else { "" }
}

/// The attributes, and a dash for a withdrawal.
fn write_value<W: TextOut>(value: &Option<Shared<Attrs>>, out: &mut W) -> Result<(), W::Fault>
    ensures written { OnOk result (W.written out.new ≡ W.written out.old ++ value_text value.now) }
    ensures kept { Kept W.follows out.old out.new }
{
    match value {
        Some(attrs) => append_attrs(attrs, out),
        None => out.put(b"-"),
    }
}
