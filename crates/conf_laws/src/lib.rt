//! Laws of configurations and of texts that are refused, which nothing running needs: what logs and
//! device blocks hold (`blocks`), that each text is a configuration or is refused (`readings`), and
//! that what stands before the refused token begins a configuration (`laws`). Nothing here runs.
//! What the laws speak of is defined in conf_words and conf_tree; that a text says one thing at
//! most, one configuration or one refusal in one line and column, is a law of conf_tree, since
//! crates on the way to the program rest on it.
#![tactic(auto)]

pub mod blocks;
pub mod laws;
pub mod readings;
