//! Attributes of routes and their constants, as words of the language.

/// An attribute of routes (BIRD User's Guide, "Route attributes").
#[derive(Clone, Copy, Debug, PartialEq, Eq)]
pub enum Attribute {
    /// `net`
    Net,
    /// `preference`
    Preference,
    /// `gw`
    Gw,
    /// `from`
    From,
    /// `bgp_next_hop`
    BgpNextHop,
    /// `proto`
    Proto,
    /// `source`
    Source,
    /// `dest`
    Dest,
    /// `bgp_path`
    BgpPath,
    /// `bgp_origin`
    BgpOrigin,
    /// `bgp_med`
    BgpMed,
    /// `bgp_local_pref`
    BgpLocalPref,
    /// `igp_metric`
    IgpMetric,
    /// `bgp_community`
    BgpCommunity,
}

/// A constant of an attribute's values.
#[derive(Clone, Copy, Debug, PartialEq, Eq)]
pub enum Constant {
    /// `RTS_STATIC`
    RtsStatic,
    /// `RTS_BGP`
    RtsBgp,
    /// `RTD_UNICAST`
    RtdUnicast,
    /// `RTD_ROUTER`
    RtdRouter,
    /// `RTD_BLACKHOLE`
    RtdBlackhole,
    /// `RTD_UNREACHABLE`
    RtdUnreachable,
    /// `RTD_PROHIBIT`
    RtdProhibit,
    /// `ORIGIN_IGP`
    OriginIgp,
    /// `ORIGIN_EGP`
    OriginEgp,
    /// `ORIGIN_INCOMPLETE`
    OriginIncomplete,
}
