//! What a query names.
ghost use Rattle.std.specs.Prelude.{◌≡◌, ◌<◌, ℕ, IfSome, is_some, length, map, option_and_then, option_copied, option_map, slice_get};
ghost use Rattle.core_setup.specs.Queries.{exports_at, exports_in};
ghost use Rattle.core_setup.specs.Reports.{name_in};
ghost use Rattle.sys_run.specs.Parts.{body_seen, exports_seen, protocol_seen, table_seen};

use attrs::Judge;
use sys_run::{BodyParts, ExportParts, ProtocolParts, TableParts};

/// The name of the table of a number.
pub(crate) fn table_named(tables: &[TableParts], number: u32) -> &[u8]
    requires { number < length tables.now }
    ensures { result.now ≡ name_in (slice_get (map table_seen tables.now) number) }
{
    tables[number as usize].name.as_slice()
}

/// The filter by which a query chooses routes.
pub(crate) fn choice_named<J: Judge>(choices: &[J], number: Option<u32>) -> Option<&J>
    ensures { option_map J.verdict (option_copied result)
        ≡ option_and_then (λ (n : ℕ). slice_get (map J.verdict choices.now) n) number }
{
    match number {
        Some(number) => choices.get(number as usize),
        None => None,
    }
}

/// A protocol's channel to its neighbour, whether it is up or down.
fn channel_in<J: Judge>(body: &BodyParts<J>) -> Option<&ExportParts<J>>
    ensures { option_map (exports_seen J.verdict) (option_copied result)
        ≡ exports_in (body_seen J.verdict body.now) }
{
    match body {
        BodyParts::Source(source) => source.exports.as_ref(),
        BodyParts::Pipe(_) => None,
    }
}

/// The channel of the protocol whose exports a query asks for.
pub(crate) fn channel_named<J: Judge>(
    protocols: &[ProtocolParts<J>],
    number: Option<u32>,
) -> Option<&ExportParts<J>>
    ensures { option_map (exports_seen J.verdict) (option_copied result)
        ≡ option_and_then (exports_at (map (protocol_seen J.verdict) protocols.now)) number }
{
    let Some(number) = number else {
        return None;
    };
    match protocols.get(number as usize) {
        Some(protocol) => channel_in(&protocol.body),
        None => None,
    }
}
