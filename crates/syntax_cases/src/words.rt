//! Words, or at which byte a text is refused. A word is written `FIRST:WHAT`, by its first token,
//! with `@PLACE` where it carries a place, and `[START+LEN]` where it tells bytes of the text.
ghost use Rattle.std.specs.Prelude.{◌<◌, ◌^◌, ◌-◌, length};

use crate::tokens::addr_text;
use conf_lex::{Word, words_from};
use conf_scan::{LexFault, lex};
use std::alloc::Global;
use std::io;

fn word_text(alloc: Global, word: Word) -> io::Result<String> {
    Ok(match word {
        Word::Name { at, start, len } => format!(in alloc; "name@{at}[{start}+{len}]")?,
        Word::Number { at, value } => format!(in alloc; "{value}@{at}")?,
        Word::Text { at, start, len } => format!(in alloc; "text@{at}[{start}+{len}]")?,
        Word::Ip { at, addr } => {
            let addr = addr_text(alloc, &addr.addr())?;
            format!(in alloc; "{addr}@{at}")?
        }
        Word::Prefix { at, net } => {
            let addr = addr_text(alloc, &net.addr())?;
            let len = net.len();
            format!(in alloc; "{addr}/{len}@{at}")?
        }
        Word::BadPrefix { at } => format!(in alloc; "bad@{at}")?,
        Word::Attribute { at, attribute } => format!(in alloc; "{attribute:?}@{at}")?,
        Word::Constant { at, constant } => format!(in alloc; "{constant:?}@{at}")?,
        Word::Symbol(symbol) => format!(in alloc; "{symbol:?}")?,
        Word::Placed { at, symbol } => format!(in alloc; "{symbol:?}@{at}")?,
    })
}

fn words_text(alloc: Global, words: &[Word], starts: &[usize]) -> io::Result<String> {
    let mut text = String::new(alloc);
    for (word, start) in words.iter().zip(starts) {
        if !text.is_empty() {
            text.push_str(" ")?;
        }
        let word = word_text(alloc, *word)?;
        write!(text, "{start}:{word}")?;
    }
    Ok(text)
}

/// The words of a text, or where it has no tokens.
pub fn answer(alloc: Global, text: &[u8]) -> io::Result<String>
    requires { length text.now < 2 ^ 32 - 1 }
{
    let out_of_memory = io::Error::from(io::ErrorKind::OutOfMemory);
    match lex(alloc, text) {
        Ok(tokens) => match words_from(alloc, text, tokens.as_slice(), 0) {
            Ok(found) => words_text(alloc, found.words.as_slice(), found.starts.as_slice()),
            Err(_) => Err(out_of_memory),
        },
        Err(LexFault::Bad { at }) => Ok(format!(in alloc; "refused at {at}")?),
        Err(LexFault::Memory) => Err(out_of_memory),
    }
}
