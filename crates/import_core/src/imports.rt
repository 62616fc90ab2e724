//! What an announcement is for a table.
ghost use Rattle.std.specs.Prelude.{◌≡◌, IfOk};
ghost use Rattle.import_core.specs.Import.{imported_attrs, local_preference};

use crate::{Given, ImportSpec};
use attrs::{Attrs, Dest};
use bits_ip::OutOfMemory;

/// The attributes that an announcement gives, in a session with a neighbour of this router id.
///
/// The route has the spec's kind, neighbour and preference; its packets go to the given gateway.
/// Its local preference is the given one on an internal session, and the default where none is
/// given and on each external session (RFC 4271, section 5.1.5).
pub(crate) fn import_attrs(spec: &ImportSpec, id: u32, given: &Given) -> Result<Attrs, OutOfMemory>
    ensures { IfOk result (λ attrs. attrs ≡ imported_attrs spec.now id given.now) }
{
    Ok(Attrs {
        pref: spec.pref,
        kind: spec.kind,
        dest: Dest::Unicast,
        gw: Some(given.gw),
        sender: spec.sender,
        peer_id: id,
        ebgp: spec.ebgp,
        path: given.path.copy()?,
        origin: Some(given.origin),
        next_hop: Some(given.gw),
        med: given.med,
        lp: Some(local_preference(spec, given.lp)),
        igp: given.igp,
        coms: given.coms.copy()?,
    })
}

fn local_preference(spec: &ImportSpec, given: Option<u32>) -> u32
    ensures { result ≡ local_preference spec.now given }
{
    if spec.ebgp {
        spec.src.def_lp
    } else {
        given.unwrap_or(spec.src.def_lp)
    }
}
