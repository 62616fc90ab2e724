//! Laws of a phase that threads have played: it is legal, what is printed of it is what the room
//! has come to, and what stands behind it is what a further phase can begin with.
#![tactic(auto)]

pub mod laws;
