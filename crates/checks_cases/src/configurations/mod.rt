//! Configurations: what an accepted one comes to, or the line, the column and the kind of the first
//! refusal.
//!
//! The modules `numbered` and `shown` say how an input and what is accepted are written.
mod answer;
mod numbered;
mod shown;

pub use answer::answer;
pub use shown::family_word;
