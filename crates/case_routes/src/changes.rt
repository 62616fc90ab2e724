//! Which attributes a filter changed, each with its label as in texts of attributes: ` med 5`, and
//! ` no med` where there is none any more.
use attrs::{Attrs, Clist, Path, write_spaced_numbers, write_spaced_pairs};
use bits_ip::{Addr, OutOfMemory, append_addr, write_number};

fn write_number_change(
    label: &str,
    before: Option<u32>,
    after: Option<u32>,
    out: &mut Vec<u8>,
) -> Result<(), OutOfMemory> {
    if before == after {
        return Ok(());
    }
    let Some(number) = after else {
        return write_none(label, out);
    };
    out.extend_from_slice(label.as_bytes())?;
    out.push(b' ')?;
    write_number(number, out)
}

fn write_none(label: &str, out: &mut Vec<u8>) -> Result<(), OutOfMemory> {
    out.extend_from_slice(b" no")?;
    out.extend_from_slice(label.as_bytes())?;
    Ok(())
}

fn write_addr_change(
    label: &str,
    before: Option<Addr>,
    after: Option<Addr>,
    out: &mut Vec<u8>,
) -> Result<(), OutOfMemory> {
    if before == after {
        return Ok(());
    }
    let Some(addr) = after else {
        return write_none(label, out);
    };
    out.extend_from_slice(label.as_bytes())?;
    out.push(b' ')?;
    append_addr(&addr, out)
}

fn write_path_change(before: &Path, after: &Path, out: &mut Vec<u8>) -> Result<(), OutOfMemory> {
    if before == after {
        return Ok(());
    }
    if after.is_empty() {
        return write_none(" path", out);
    }
    out.extend_from_slice(b" path")?;
    write_spaced_numbers(after.as_slice(), out)
}

fn write_clist_change(before: &Clist, after: &Clist, out: &mut Vec<u8>) -> Result<(), OutOfMemory> {
    if before == after {
        return Ok(());
    }
    if after.is_empty() {
        return write_none(" com", out);
    }
    out.extend_from_slice(b" com")?;
    write_spaced_pairs(after.as_slice(), out)
}

fn write_origin_change(
    before: &Attrs,
    after: &Attrs,
    out: &mut Vec<u8>,
) -> Result<(), OutOfMemory> {
    if before.origin == after.origin {
        return Ok(());
    }
    let Some(origin) = after.origin else {
        return write_none(" origin", out);
    };
    out.extend_from_slice(b" origin ")?;
    out.extend_from_slice(origin.word().as_bytes())?;
    Ok(())
}

fn write_dest_change(before: &Attrs, after: &Attrs, out: &mut Vec<u8>) -> Result<(), OutOfMemory> {
    if before.dest != after.dest {
        out.push(b' ')?;
        out.extend_from_slice(after.dest.word().as_bytes())?;
    }
    Ok(())
}

/// What no filter can change.
fn write_source_change(
    before: &Attrs,
    after: &Attrs,
    out: &mut Vec<u8>,
) -> Result<(), OutOfMemory> {
    let is_same_neighbour = before.peer_id == after.peer_id && before.ebgp == after.ebgp;
    if before.kind != after.kind || !is_same_neighbour {
        out.extend_from_slice(b" another source")?;
    }
    Ok(())
}

fn write_way_changes(before: &Attrs, after: &Attrs, out: &mut Vec<u8>) -> Result<(), OutOfMemory> {
    write_path_change(&before.path, &after.path, out)?;
    write_origin_change(before, after, out)?;
    write_addr_change(" nh", before.next_hop, after.next_hop, out)
}

fn write_metric_changes(
    before: &Attrs,
    after: &Attrs,
    out: &mut Vec<u8>,
) -> Result<(), OutOfMemory> {
    write_number_change(" med", before.med, after.med, out)?;
    write_number_change(" lp", before.lp, after.lp, out)?;
    write_number_change(" igp", before.igp, after.igp, out)
}

/// Appends the attributes that aren't as they were before.
pub fn write_changes(before: &Attrs, after: &Attrs, out: &mut Vec<u8>) -> Result<(), OutOfMemory> {
    write_number_change(" pref", Some(before.pref), Some(after.pref), out)?;
    write_dest_change(before, after, out)?;
    write_addr_change(" gw", before.gw, after.gw, out)?;
    write_addr_change(" from", before.sender, after.sender, out)?;
    write_source_change(before, after, out)?;
    write_way_changes(before, after, out)?;
    write_metric_changes(before, after, out)?;
    write_clist_change(&before.coms, &after.coms, out)
}
