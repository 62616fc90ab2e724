//! Laws of syntax as plain data: a tree of the grammar is of one abstract syntax and that of one
//! tree, and a text is one at most.
#![tactic(auto)]

pub mod laws;
