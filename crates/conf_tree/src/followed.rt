// Whether a word can go on with the beginning of a configuration.

ghost use Rattle.conf_syntax.specs.Syntax.{config};

use crate::config::config;
use bits_ip::OutOfMemory;
use conf_lex::{Refusal, Word};
use conf_syntax::{is_apart, is_joined};
use filt_syntax::parts::{LEVELS, Sentences};
use std::alloc::Global;

pub struct Configurations;

impl Sentences for Configurations {
    ghost form = { config };

    fn is_begun(alloc: Global, words: &[Word]) -> Result<bool, OutOfMemory> {
        if is_apart(words) {
            return Ok(false);
        }
        if is_joined(words) {
            return Ok(true);
        }
        let mut unread = 0;
        match config(alloc, words, LEVELS, &mut unread) {
            Ok(_) => Ok(true),
            Err(Refusal::Memory) => Err(OutOfMemory),
            Err(Refusal::Bad(rest)) => Ok(rest.is_empty()),
            Err(Refusal::TooDeep(_)) => Ok(true),
        }
    }
}
