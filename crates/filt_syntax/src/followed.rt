// Whether a word can go on with the beginning of an expression or a block.

ghost use Rattle.std.specs.Prelude.{IfOk};
ghost use Rattle.expr_syntax.specs.Syntax.{expr, block};
ghost use Rattle.filt_syntax.specs.Inside.{IsEndBy};

use crate::block_words::parse_block_words;
use crate::parse::{SyntaxFault, parse_expr_words};
use crate::refused_token::Sentences;
use bits_ip::OutOfMemory;
use conf_lex::Word;
use std::alloc::Global;

// Whether words are refused at their end, or for their levels alone.
fn ends_by(fault: SyntaxFault, end: usize) -> Result<bool, OutOfMemory>
    ensures { IfOk result (IsEndBy fault end) }
{
    match fault {
        SyntaxFault::Bad { at } => Ok(at == end),
        SyntaxFault::TooDeep { .. } => Ok(true),
        SyntaxFault::Unsupported { .. } => Ok(true),
        SyntaxFault::Memory => Err(OutOfMemory),
    }
}

pub struct Expressions;

impl Sentences for Expressions {
    ghost form = { expr };

    fn is_begun(alloc: Global, words: &[Word]) -> Result<bool, OutOfMemory> {
        match parse_expr_words(alloc, words, 0) {
            Ok((_, end)) => Ok(end == words.len()),
            Err(fault) => ends_by(fault, words.len()),
        }
    }
}

pub struct Blocks;

impl Sentences for Blocks {
    ghost form = { block };

    fn is_begun(alloc: Global, words: &[Word]) -> Result<bool, OutOfMemory> {
        match parse_block_words(alloc, words, 0) {
            Ok((_, end)) => Ok(end == words.len()),
            Err(fault) => ends_by(fault, words.len()),
        }
    }
}
