//! What follows from the definitions alone. The functions are empty: their clauses are the laws.

ghost use Rattle.conf_options.specs.Kinds as kinds;
ghost use Rattle.conf_options.specs.Kinds.{bgp_kind, channel_kind, pipe_kind};
ghost use Rattle.conf_options.specs.Laws.{ChangePlaces, LastCounts, NoneIsNone};
ghost use Rattle.conf_options.specs.Options.{no_bgp_options, no_channel_options, no_pipe_options, with_bgp_option, with_channel_option, with_pipe_option};

/// An option behind which none of its kind comes counts, whatever stands before it.
pub fn the_last_of_a_kind_counts()
    ensures channel { LastCounts with_channel_option no_channel_options channel_kind }
    ensures bgp { LastCounts with_bgp_option no_bgp_options bgp_kind }
    ensures pipe { LastCounts with_pipe_option no_pipe_options pipe_kind }
{}

/// Options of different kinds may change places.
pub fn kinds_may_change_places()
    ensures channel { ChangePlaces with_channel_option no_channel_options channel_kind }
    ensures bgp { ChangePlaces with_bgp_option no_bgp_options bgp_kind }
    ensures pipe { ChangePlaces with_pipe_option no_pipe_options pipe_kind }
{}

/// A channel says nothing of what none of its options is of.
pub fn a_channel_has_no_more_than_is_written()
    ensures table { NoneIsNone with_channel_option no_channel_options channel_kind
        kinds.TableOfChannel (λ o. o.table) }
    ensures import { NoneIsNone with_channel_option no_channel_options channel_kind
        kinds.ImportOfChannel (λ o. o.import) }
    ensures export { NoneIsNone with_channel_option no_channel_options channel_kind
        kinds.ExportOfChannel (λ o. o.export) }
    ensures preference { NoneIsNone with_channel_option no_channel_options channel_kind
        kinds.PreferenceOfChannel (λ o. o.preference) }
    ensures limit { NoneIsNone with_channel_option no_channel_options channel_kind
        kinds.LimitOfChannel (λ o. o.limit) }
{}

/// Nor does a BGP protocol.
pub fn a_session_has_no_more_than_is_written()
    ensures local { NoneIsNone with_bgp_option no_bgp_options bgp_kind
        kinds.LocalOfBgp (λ o. o.local) }
    ensures neighbor { NoneIsNone with_bgp_option no_bgp_options bgp_kind
        kinds.NeighborOfBgp (λ o. o.neighbor) }
    ensures med_metric { NoneIsNone with_bgp_option no_bgp_options bgp_kind
        kinds.MedMetricOfBgp (λ o. o.med_metric) }
    ensures interpret_communities { NoneIsNone with_bgp_option no_bgp_options bgp_kind
        kinds.InterpretCommunitiesOfBgp (λ o. o.interpret_communities) }
    ensures default_med { NoneIsNone with_bgp_option no_bgp_options bgp_kind
        kinds.DefaultMedOfBgp (λ o. o.default_med) }
    ensures default_local_pref { NoneIsNone with_bgp_option no_bgp_options bgp_kind
        kinds.DefaultLocalPrefOfBgp (λ o. o.default_local_pref) }
{}

/// Nor does a pipe.
pub fn a_pipe_has_no_more_than_is_written()
    ensures table { NoneIsNone with_pipe_option no_pipe_options pipe_kind
        kinds.TableOfPipe (λ o. o.table) }
    ensures peer { NoneIsNone with_pipe_option no_pipe_options pipe_kind
        kinds.PeerOfPipe (λ o. o.peer) }
    ensures import { NoneIsNone with_pipe_option no_pipe_options pipe_kind
        kinds.ImportOfPipe (λ o. o.import) }
    ensures export { NoneIsNone with_pipe_option no_pipe_options pipe_kind
        kinds.ExportOfPipe (λ o. o.export) }
{}
