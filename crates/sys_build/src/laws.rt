//! What holds of all that an accepted configuration and a script give to play, and of what is
//! named.
ghost use Rattle.std.specs.Prelude.{◌≡◌, ◌<◌, ◌≤◌, ◌^◌, ℕ, Bool, List, [], ◌∷◌, Some, length, map};
ghost use Rattle.std.specs.List.{All};
ghost use Rattle.core_setup.specs.Bridges.{KeepsItsOwn, pipe_at};
ghost use Rattle.core_setup.specs.Channels.{Channel, channels};
ghost use Rattle.core_setup.specs.Pairs.{Pairs};
ghost use Rattle.core_setup.specs.Protocols.{rules_of};
ghost use Rattle.core_setup.specs.Setup.{IsSetup, Pipe, Protocol};
ghost use Rattle.script_lines.specs.Kinds.{AreFew};
ghost use Rattle.script_lines.specs.Script.{HasTables, NamesWhatIs};
ghost use Rattle.script_lines.specs.declared.named.NamedProtocol.{NamedProtocol};
ghost use Rattle.script_lines.specs.declared.script.Line.{Line};
ghost use Rattle.show_route.specs.declared.query.Query.{Query};
ghost use Rattle.sys_build.specs.Names.{IsKindOf, named_of};
ghost use Rattle.sys_build.specs.Scripts.{Accepted, Answers};
ghost use Rattle.sys_build.specs.Setups.{setup_of};
ghost use Rattle.sys_run.specs.Scripts.{FitsLine};
ghost use Rattle.conf_system.specs.Policies.{Filter};
ghost use Rattle.conf_system.specs.System.{System};
ghost use Rattle.conf_system.specs.Texts.{IsSystem};

use conf_names::laws::{
    joined_tables_are_those_that_pipes_lead_between, pipes_of_a_forest_are_bridges,
};
use conf_system::laws::{
    channels_have_their_tables, configurations_have_few_protocols,
    configurations_have_few_tables_and_filters, pipes_form_a_forest,
};
use core_setup::laws::bridges_keep_their_own;
use script_lines::laws as lines;

/// An accepted script over an accepted configuration can be played: routes tell the numbers of
/// their protocols, each table that a protocol names is there, each channel is of the family of its
/// table, and so are the nets of configured routes, a pipe joins two tables of one family, and what
/// a query names is there.
pub fn accepted_scripts_are_setups()
    ensures { (conf text : List ℕ) (system : System) (schedule : Bool) (phases : List (List Line))
        (actors : List (List ℕ)) (queries : List Query) (filters : List Filter) (cells : ℕ)
        → IsSystem conf system → Answers system schedule text (Accepted phases actors queries filters)
        → IsSetup (setup_of system cells filters queries) }
{
    joined_tables_are_those_that_pipes_lead_between();
    channels_have_their_tables();
    pipes_form_a_forest();
    accepted_configurations_have_their_tables();
    lines::a_script_names_what_is();
}

/// In an accepted configuration each direction of a pipe keeps the routes that come by the pipe
/// itself to the table that it reads, and passes those of all other sources that come there. So
/// nothing goes back by the pipe that it came by.
pub fn pipes_keep_their_own()
    ensures { (conf text : List ℕ) (system : System) (schedule : Bool) (phases : List (List Line))
        (actors : List (List ℕ)) (queries : List Query) (filters : List Filter)
        (cells number : ℕ) (p : Pipe) (d e num : ℕ) → IsSystem conf system
        → Answers system schedule text (Accepted phases actors queries filters)
        → pipe_at (setup_of system cells filters queries) number ≡ Some p
        → (rules_of (setup_of system cells filters queries)).belong number ≡ d ∷ e ∷ []
        → KeepsItsOwn (setup_of system cells filters queries) d e num
        × KeepsItsOwn (setup_of system cells filters queries) e d num }
{
    pipes_form_a_forest();
    pipes_of_a_forest_are_bridges();
    bridges_keep_their_own();
    accepted_scripts_are_setups();
}

/// Each line of an accepted script names what there is, and at most 64 speak.
pub fn accepted_scripts_name_what_is()
    ensures lines { (system : System) (schedule : Bool) (text : List ℕ) (phases : List (List Line))
        (actors : List (List ℕ)) (queries : List Query) (filters : List Filter)
        → Answers system schedule text (Accepted phases actors queries filters)
        → All (All (NamesWhatIs (named_of system schedule) actors (length queries))) phases }
    ensures actors { (system : System) (schedule : Bool) (text : List ℕ) (phases : List (List Line))
        (actors : List (List ℕ)) (queries : List Query) (filters : List Filter)
        → Answers system schedule text (Accepted phases actors queries filters) → length actors ≤ 64 }
{
    lines::a_script_names_what_is();
}

/// What an accepted script announces to a protocol is of the family of the protocol's table.
pub fn accepted_scripts_fit_their_tables()
    ensures { (conf text : List ℕ) (system : System) (schedule : Bool) (phases : List (List Line))
        (actors : List (List ℕ)) (queries : List Query) (filters : List Filter) (cells : ℕ)
        → IsSystem conf system → Answers system schedule text (Accepted phases actors queries filters)
        → All (All (FitsLine (setup_of system cells filters queries))) phases }
{
    kinds_are_those_of_the_setup();
    accepted_scripts_name_what_is();
}

/// The numbers by which scripts name protocols and channels are those of the setup, and so those of
/// its reports.
pub fn names_count_as_the_setup()
    ensures protocols { (system : System) (schedule : Bool) (cells : ℕ) (filters : List Filter)
        (queries : List Query)
        → map (λ (p : NamedProtocol). p.name) (named_of system schedule).protocols
        ≡ map (λ (p : Protocol). p.name) (setup_of system cells filters queries).protocols }
    ensures channels { (system : System) (schedule : Bool) (cells : ℕ) (filters : List Filter)
        (queries : List Query) → (named_of system schedule).channels
        ≡ map (λ (c : Channel). c.name) (channels (setup_of system cells filters queries)) }
{}

/// Scripts know each protocol of an accepted configuration as what it is, with the family of its
/// table.
pub fn kinds_are_those_of_the_setup()
    ensures { (text : List ℕ) (system : System) → IsSystem text system → (schedule : Bool) (cells : ℕ)
        (filters : List Filter) (queries : List Query)
        → Pairs (λ i named p. IsKindOf (setup_of system cells filters queries).tables named.kind
        p.body) 0 (named_of system schedule).protocols
        (setup_of system cells filters queries).protocols }
{
    channels_have_their_tables();
}

/// What an accepted configuration names is little enough for numbers of 32 bits: it has at most 256
/// protocols and 64 tables, and no more filters than bytes.
pub fn accepted_configurations_are_few()
    ensures { (text : List ℕ) (system : System) → IsSystem text system → length text < 2 ^ 32
        → (schedule : Bool) → AreFew (named_of system schedule) }
{
    configurations_have_few_protocols();
    configurations_have_few_tables_and_filters();
}

/// An accepted configuration has the tables master4 and master6, and those of its protocols.
pub fn accepted_configurations_have_their_tables()
    ensures { (text : List ℕ) (system : System) → IsSystem text system
        → (schedule : Bool) → HasTables (named_of system schedule) }
{
    channels_have_their_tables();
}
