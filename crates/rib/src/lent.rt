//! A row that a table lends.
use attrs::Route;
use bits_ip::Prefix;
use std::marker::Model;

/// A net of a table and its routes in selection order, which stand in the table: no route is
/// copied. Contracts see it as a `Row`.
#[derive(Debug, Drop)]
pub struct LentRow<'a> {
    pub net: Prefix,
    pub routes: &'a [Route],
}

impl<'a> Model for LentRow<'a> {
    ghost use Rattle.attrs.specs.declared.route.Row.{Row};

    ghost Value = { Row };

    ghost view = { λ row. record { net = row.net; routes = row.routes.now } };
}
