//! Expressions and blocks: at which token the longest one in front of a text ends, or which token
//! is refused. Of words it is their places that are told.
ghost use Rattle.std.specs.Prelude.{◌<◌, ◌^◌, ◌-◌, length};
ghost use Rattle.conf_scan.specs.Lex.{Lexes};

use conf_lex::{Words, words_from};
use conf_scan::{Token, lex};
use filt_syntax::{SyntaxFault, parse_block, parse_block_words, parse_expr, parse_expr_words};
use std::alloc::Global;
use std::io;
use std::io::{Error, ErrorKind};

/// What is read at the front of a text.
#[derive(Clone, Copy, Debug)]
pub enum Reader {
    Expression,
    Block,
    /// The same, in words.
    WordExpression,
    WordBlock,
}

fn bad<E: Drop>(_: E) -> Error {
    Error::from(ErrorKind::InvalidData)
}

fn expression(alloc: Global, text: &[u8], tokens: &[Token]) -> Result<usize, SyntaxFault>
    requires short { length text.now < 2 ^ 32 - 1 }
    requires lexed { Lexes 0 text.now tokens.now }
{
    let (_tree, end) = parse_expr(alloc, tokens, text, 0)?;
    Ok(end)
}

fn block(alloc: Global, text: &[u8], tokens: &[Token]) -> Result<usize, SyntaxFault>
    requires short { length text.now < 2 ^ 32 - 1 }
    requires lexed { Lexes 0 text.now tokens.now }
{
    let (_tree, end) = parse_block(alloc, tokens, text, 0)?;
    Ok(end)
}

fn word_expression(alloc: Global, words: &Words) -> Result<usize, SyntaxFault> {
    let (_tree, end) = parse_expr_words(alloc, &words.words, 0)?;
    Ok(end)
}

fn word_block(alloc: Global, words: &Words) -> Result<usize, SyntaxFault> {
    let (_tree, end) = parse_block_words(alloc, &words.words, 0)?;
    Ok(end)
}

fn end_of(alloc: Global, reader: Reader, text: &[u8]) -> io::Result<Result<usize, SyntaxFault>>
    requires { length text.now < 2 ^ 32 - 1 }
{
    let tokens = lex(alloc, text).map_err(bad)?;
    match reader {
        Reader::Expression => Ok(expression(alloc, text, &tokens)),
        Reader::Block => Ok(block(alloc, text, &tokens)),
        Reader::WordExpression => {
            let words = words_from(alloc, text, &tokens, 0).map_err(bad)?;
            Ok(word_expression(alloc, &words))
        }
        Reader::WordBlock => {
            let words = words_from(alloc, text, &tokens, 0).map_err(bad)?;
            Ok(word_block(alloc, &words))
        }
    }
}

/// Where what is read ends, or the place and the kind of its refusal.
pub fn answer(alloc: Global, reader: Reader, text: &[u8]) -> io::Result<String>
    requires { length text.now < 2 ^ 32 - 1 }
{
    match end_of(alloc, reader, text)? {
        Ok(end) => Ok(format!(in alloc; "{end}")?),
        Err(SyntaxFault::Bad { at }) => Ok(format!(in alloc; "bad at {at}")?),
        Err(SyntaxFault::TooDeep { at }) => Ok(format!(in alloc; "too deep at {at}")?),
        Err(SyntaxFault::Unsupported { at }) => Ok(format!(in alloc; "not supported at {at}")?),
        Err(SyntaxFault::Memory) => Ok(String::from_str(alloc, "out of memory")?),
    }
}
