//! When a phase with pipes is at rest, once its threads have returned and its locks are open.
//!
//! A direction that pushes writes a table that others read, so channels and directions come to rest
//! in rounds of turns. Behind a round the greatest head that any port of a table has seen is the
//! table's last, since nobody else writes it (`heads`); rounds are over once all that is up is at
//! rest at no less than that head (`resting`). What is left of a protocol, of either kind, is a
//! `member`; `laws` say that what has gone on by turns is left as before, and that at the end it
//! knows its table's last head.
//!
//! Not here: the rounds themselves. Who has them must also move the cursors by which nothing is
//! read, those of what is down among them: they lag like any other, and who pushes waits for them.
#![tactic(auto)]

mod heads;
pub mod laws;
mod member;
mod resting;

pub use heads::last_heads;
pub use member::MemberLeft;
pub use resting::{has_read, have_read};
