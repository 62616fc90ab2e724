//! Tests of the parsers in code: the small functions that they are made of, and which trees come of
//! texts. What is accepted and refused is tried by the tables of `syntax_cases`.
#![tactic(auto)]

#[cfg(test)]
mod expressions;
#[cfg(test)]
mod parsing;
#[cfg(test)]
mod statements;
