ghost use Rattle.std.specs.Prelude.{◌≡◌};
ghost use Rattle.conf_lex.specs.Attributes.{attribute_of, constant_of};

use crate::keywords::find;
use conf_ast::{Attribute, Constant};

/// The attribute that is spelled so.
pub fn attribute_of(bytes: &[u8]) -> Option<Attribute>
    ensures { result ≡ attribute_of bytes.now }
{
    const TABLE: [(&[u8], Attribute); 14] = [
        (b"net", Attribute::Net),
        (b"preference", Attribute::Preference),
        (b"gw", Attribute::Gw),
        (b"from", Attribute::From),
        (b"bgp_next_hop", Attribute::BgpNextHop),
        (b"proto", Attribute::Proto),
        (b"source", Attribute::Source),
        (b"dest", Attribute::Dest),
        (b"bgp_path", Attribute::BgpPath),
        (b"bgp_origin", Attribute::BgpOrigin),
        (b"bgp_med", Attribute::BgpMed),
        (b"bgp_local_pref", Attribute::BgpLocalPref),
        (b"igp_metric", Attribute::IgpMetric),
        (b"bgp_community", Attribute::BgpCommunity),
    ];
    find(&TABLE, bytes)
}

/// The constant that is spelled so.
pub fn constant_of(bytes: &[u8]) -> Option<Constant>
    ensures { result ≡ constant_of bytes.now }
{
    const TABLE: [(&[u8], Constant); 10] = [
        (b"RTS_STATIC", Constant::RtsStatic),
        (b"RTS_BGP", Constant::RtsBgp),
        (b"RTD_UNICAST", Constant::RtdUnicast),
        (b"RTD_ROUTER", Constant::RtdRouter),
        (b"RTD_BLACKHOLE", Constant::RtdBlackhole),
        (b"RTD_UNREACHABLE", Constant::RtdUnreachable),
        (b"RTD_PROHIBIT", Constant::RtdProhibit),
        (b"ORIGIN_IGP", Constant::OriginIgp),
        (b"ORIGIN_EGP", Constant::OriginEgp),
        (b"ORIGIN_INCOMPLETE", Constant::OriginIncomplete),
    ];
    find(&TABLE, bytes)
}
