//! What is played, as the machine sees it: tables, and protocols with their filters
//! (`specs/Setup`), the machine's rules that they say (`specs/Protocols`), and the reports of
//! phases (`specs/Reports`). Nothing here runs.
//!
//! `laws` has that the rules owe what the machine asks of them, so that its laws hold: reports of
//! its phases are legal, and scripts come to one list of them.
#![tactic(auto)]

pub mod laws;
