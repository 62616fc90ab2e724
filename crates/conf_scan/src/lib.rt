//! The tokens of BIRD's configuration language (BIRD User's Guide, "Configuration").
//!
//! A text is a list of tokens with gaps between them, or is refused at the one place where no token
//! begins (`specs/Lex`, by the shapes of `specs/Shapes`). `lex` makes the list; `next_token` walks
//! along a text and keeps none. Numbers and addresses stand in the tokens, the bytes of names and
//! texts in the source alone. The words that grammars read are made of tokens in `conf_lex`.
#![tactic(auto)]

pub mod laws;
mod lexer;
mod number;
mod scan;
mod token;
mod trivia;
mod values;

pub use lexer::{Spot, lex, next_token};
pub use token::{LexFault, Token, TokenKind};
