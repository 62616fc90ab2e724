//! The parsers of the forms, for the grammars that hold them. Each function takes the words from a
//! place on, and most how many more levels may be opened, and gives a value and the words after it.

pub use crate::limits::{expect_hop, limit_value};
pub use crate::literal::literal;
pub use crate::routes::route_target;
pub use crate::simple::{
    as_number, expect_address, expect_switch, next_family, optional_address, optional_name,
    optional_semicolon,
};
pub use crate::transport::transport;
