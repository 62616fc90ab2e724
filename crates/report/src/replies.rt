//! Replies to `show route`, with each line of their texts behind a tab.
ghost use Rattle.std.specs.Prelude.{◌≡◌, ◌++◌, ◌∷◌, codes, decimal, OnOk};
ghost use Rattle.std.specs.List.{flat_map};
ghost use Rattle.bits_ip.specs.Out.{Kept};
ghost use Rattle.text.specs.Lines.{lines_of};
ghost use Rattle.report.specs.Report.{line1, reply_block};

use crate::phase::ReplyReport;
use bits_ip::{TextOut, write_number};
use text::cut_line;

/// Appends each reply to `show route`.
pub(crate) fn write_replies<W: TextOut>(
    replies: &[ReplyReport],
    out: &mut W,
) -> Result<(), W::Fault>
    ensures written { OnOk result
        (W.written out.new ≡ W.written out.old ++ flat_map reply_block replies.now) }
    ensures kept { Kept W.follows out.old out.new }
{
    for reply in replies {
        write_reply(reply, out)?;
    }
    Ok(())
}

fn write_reply<W: TextOut>(reply: &ReplyReport, out: &mut W) -> Result<(), W::Fault>
    ensures written { OnOk result (W.written out.new ≡ W.written out.old ++ reply_block reply.now) }
    ensures kept { Kept W.follows out.old out.new }
{
    write_reply_head(reply, out)?;
    write_lines(reply.text.as_slice(), out)
}

/// Who asked, and the table with the position that the reply is of.
fn write_reply_head<W: TextOut>(reply: &ReplyReport, out: &mut W) -> Result<(), W::Fault>
    ensures written { OnOk result
        (W.written out.new ≡ W.written out.old
        ++ codes "reply " ++ reply.now.actor ++ 32 ∷ reply.now.table
        ++ 32 ∷ decimal reply.now.at ++ codes "\n") }
    ensures kept { Kept W.follows out.old out.new }
{
    out.put(b"reply ")?;
    out.put(reply.actor.as_slice())?;
    out.put(b" ")?;
    out.put(reply.table.as_slice())?;
    out.put(b" ")?;
    write_number(reply.at, out)?;
    out.put(b"\n")
}

/// Appends each line of a text behind a tab.
fn write_lines<W: TextOut>(text: &[u8], out: &mut W) -> Result<(), W::Fault>
    ensures written { OnOk result
        (W.written out.new ≡ W.written out.old ++ flat_map line1 (lines_of text.now)) }
    ensures kept { Kept W.follows out.old out.new }
{
    let mut rest = text;
    while let Some((line, after)) = cut_line(rest) {
        write_line(line, out)?;
        rest = after;
    }
    Ok(())
}

fn write_line<W: TextOut>(line: &[u8], out: &mut W) -> Result<(), W::Fault>
    ensures written { OnOk result (W.written out.new ≡ W.written out.old ++ line1 line.now) }
    ensures kept { Kept W.follows out.old out.new }
{
    out.put(b"\t")?;
    out.put(line)?;
    out.put(b"\n")
}
