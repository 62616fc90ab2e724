//! Announcements: what an `add` of a script says of a route.
//!
//! Behind the word `add` stand a net, a gateway, a path, an origin and perhaps a MED, a local
//! preference, an internal distance and communities. `read_add` makes of these words an
//! `Announcement`, whose route is there where all its numbers fit: words are read to their end
//! before numbers are judged, so a number that is too large is kept as nothing. `next_number` reads
//! a number at the front of some words, for other lines too.
//!
//! Contracts see a text as its words (`text`). specs/Grammar says what words say, with numbers of
//! any size, specs/Limits which numbers fit, and specs/Reading what a reader makes of both.
#![tactic(auto)]

mod add;
mod communities;
mod numbers;
mod refusal;

pub use add::{Announcement, read_add};
pub use numbers::next_number;
pub use refusal::Refusal;
