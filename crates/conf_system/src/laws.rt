//! What holds of each system that a text comes to.
ghost use Rattle.std.specs.Prelude.{◌≤◌, ℕ, length, List};
ghost use Rattle.conf_names.specs.Joints.{IsForest};
ghost use Rattle.conf_system.specs.Pipes.{pipes_of};
ghost use Rattle.conf_system.specs.System.{System};
ghost use Rattle.conf_system.specs.Tables.{AllFit};
ghost use Rattle.conf_system.specs.Texts.{IsSystem};

use conf_scan::laws::{tokens_are_slices, tokens_rise};

/// An accepted configuration has at most 256 protocols.
pub fn configurations_have_few_protocols()
    ensures { (text : List ℕ) (system : System) → IsSystem text system
        → length system.protocols ≤ 256 }
{}

/// An accepted configuration has at most 64 tables, and no more filters by name than its text has
/// bytes.
pub fn configurations_have_few_tables_and_filters()
    ensures tables { (text : List ℕ) (system : System) → IsSystem text system
        → length system.tables ≤ 64 }
    ensures filters { (text : List ℕ) (system : System) → IsSystem text system
        → length system.filters ≤ length text }
{
    tokens_are_slices();
    tokens_rise();
}

/// In an accepted configuration the table of each channel is there, and is of the channel's family;
/// so are both tables of each pipe, which are of one family.
pub fn channels_have_their_tables()
    ensures { (text : List ℕ) (system : System) → IsSystem text system
        → AllFit system.tables system.protocols }
{}

/// The pipes of an accepted configuration close no cycle: each joins two tables that the pipes
/// before it don't join.
pub fn pipes_form_a_forest()
    ensures { (text : List ℕ) (system : System) → IsSystem text system
        → IsForest (pipes_of system.protocols) }
{}
