//! An operation in the spelling of scripts.
ghost use Rattle.std.specs.Prelude.{◌≡◌, ◌++◌, ◌∷◌, codes, decimal, OnOk};
ghost use Rattle.std.specs.List.{flat_map};
ghost use Rattle.bits_ip.specs.Out.{Kept};
ghost use Rattle.bits_ip.specs.Text.{addr_text, net_text, v4_text};
ghost use Rattle.attrs.specs.Text.{optional_text, origin_text};
ghost use Rattle.report.specs.Operation.{done_text, op_text, over_text};
ghost use Rattle.import_core.specs.declared.operation.Op.TheVariants.{Add};

use attrs::{write_communities, write_optional_number, write_spaced_numbers};
use bits_ip::{Addr, Prefix, TextOut, append_addr, append_prefix};
use import_core::{Done, Given, Op};

/// Appends an operation that was done, marked where a route was over the limit.
pub(crate) fn write_done<W: TextOut>(done: &Done, out: &mut W) -> Result<(), W::Fault>
    ensures written { OnOk result (W.written out.new ≡ W.written out.old ++ done_text done.now) }
    ensures kept { Kept W.follows out.old out.new }
{
    write_op(&done.op, out)?;
    write_over(done.over, out)
}

fn write_over<W: TextOut>(over: bool, out: &mut W) -> Result<(), W::Fault>
    ensures written { OnOk result (W.written out.new ≡ W.written out.old ++ over_text over) }
    ensures kept { Kept W.follows out.old out.new }
{
    if over {
        out.put(b" !limit")?;
    }
    Ok(())
}

/// Appends an operation as scripts spell it, without who gave it.
fn write_op<W: TextOut>(op: &Op, out: &mut W) -> Result<(), W::Fault>
    ensures written { OnOk result (W.written out.new ≡ W.written out.old ++ op_text op.now) }
    ensures kept { Kept W.follows out.old out.new }
{
    match op {
        Op::Start => out.put(b"start"),
        Op::SessionUp(id) => write_open(*id, out),
        Op::Add(net, given) => write_add(net, given, out),
        Op::Del(net) => write_del(net, out),
        Op::SessionDown => out.put(b"close"),
        Op::Disable => out.put(b"disable"),
        Op::Enable => out.put(b"enable"),
        Op::ReloadIn => out.put(b"reload in"),
        Op::ReloadOut => out.put(b"reload out"),
        Op::Reload => out.put(b"reload"),
    }
}

fn write_open<W: TextOut>(id: u32, out: &mut W) -> Result<(), W::Fault>
    ensures written { OnOk result
        (W.written out.new ≡ W.written out.old ++ codes "open " ++ v4_text id) }
    ensures kept { Kept W.follows out.old out.new }
{
    out.put(b"open ")?;
    append_addr(&Addr::V4(id), out)
}

fn write_del<W: TextOut>(net: &Prefix, out: &mut W) -> Result<(), W::Fault>
    ensures written { OnOk result
        (W.written out.new ≡ W.written out.old ++ codes "del " ++ net_text net.now) }
    ensures kept { Kept W.follows out.old out.new }
{
    out.put(b"del ")?;
    append_prefix(net, out)
}

fn write_add<W: TextOut>(net: &Prefix, given: &Given, out: &mut W) -> Result<(), W::Fault>
    ensures written { OnOk result
        (W.written out.new ≡ W.written out.old ++ op_text (Add net.now given.now)) }
    ensures kept { Kept W.follows out.old out.new }
{
    write_gateway(net, given, out)?;
    write_way(given, out)?;
    write_metrics(given, out)?;
    write_communities(&given.coms, out)
}

/// Which net, and where its packets go.
fn write_gateway<W: TextOut>(net: &Prefix, given: &Given, out: &mut W) -> Result<(), W::Fault>
    ensures written { OnOk result
        (W.written out.new ≡ W.written out.old
        ++ codes "add " ++ net_text net.now ++ codes " via " ++ addr_text given.now.gw) }
    ensures kept { Kept W.follows out.old out.new }
{
    out.put(b"add ")?;
    append_prefix(net, out)?;
    out.put(b" via ")?;
    append_addr(&given.gw, out)
}

/// The path that the route came by, which may be empty, and its origin.
fn write_way<W: TextOut>(given: &Given, out: &mut W) -> Result<(), W::Fault>
    ensures written { OnOk result
        (W.written out.new ≡ W.written out.old
        ++ codes " path" ++ flat_map (λ n. 32 ∷ decimal n) given.now.path
        ++ codes " origin " ++ origin_text given.now.origin) }
    ensures kept { Kept W.follows out.old out.new }
{
    out.put(b" path")?;
    write_spaced_numbers(given.path.as_slice(), out)?;
    out.put(b" origin ")?;
    out.put(given.origin.word().as_bytes())
}

/// The numbers by which routes are compared.
fn write_metrics<W: TextOut>(given: &Given, out: &mut W) -> Result<(), W::Fault>
    ensures written { OnOk result
        (W.written out.new ≡ W.written out.old
        ++ optional_text (codes " med ") decimal given.now.med
        ++ optional_text (codes " lp ") decimal given.now.lp
        ++ optional_text (codes " igp ") decimal given.now.igp) }
    ensures kept { Kept W.follows out.old out.new }
{
    write_optional_number(" med ", given.med, out)?;
    write_optional_number(" lp ", given.lp, out)?;
    write_optional_number(" igp ", given.igp, out)
}
