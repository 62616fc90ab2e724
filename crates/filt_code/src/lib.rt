//! Compiled filters: their instructions, as one list for a filter and for each function.
//!
//! Jumps lead forward, and count the instructions behind their own; the one way back is the end of
//! a loop's body. So what code does from a place on is a recursion on the list (`specs/Codes`), and
//! it ends. Sets, constants and labels stay in the checked trees and in the scope, and code refers
//! to them; functions are compiled once each, in the order of the scope, and shared.
#![tactic(auto)]

mod code;
mod instr;
pub mod laws;

pub use code::{Draft, Routine};
pub use instr::{Effect, Instr, Number, OfOne, OfTwo, Question};
