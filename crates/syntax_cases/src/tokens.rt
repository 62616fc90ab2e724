//! Tokens, or at which byte a text is refused. A token is written `WHAT@AT+LEN`: where it stands,
//! and how many bytes it has.
use bits_ip::{Addr, write_addr};
use conf_scan::{LexFault, Token, TokenKind, lex};
use std::alloc::Global;
use std::io;

/// The text of an address.
pub fn addr_text(alloc: Global, addr: &Addr) -> io::Result<String> {
    let mut text = Vec::new(alloc);
    write_addr(alloc, addr, &mut text).map_err(|_| io::Error::from(io::ErrorKind::OutOfMemory))?;
    String::from_utf8(text).map_err(|_| io::Error::from(io::ErrorKind::InvalidData))
}

fn kind_text(alloc: Global, kind: TokenKind) -> io::Result<String> {
    Ok(match kind {
        TokenKind::Name => String::from_str(alloc, "name")?,
        TokenKind::QuotedName => String::from_str(alloc, "quoted")?,
        TokenKind::Number(value) => format!(in alloc; "{value}")?,
        TokenKind::Ip(addr) => addr_text(alloc, &addr)?,
        TokenKind::Text => String::from_str(alloc, "text")?,
        TokenKind::Punctuation => String::from_str(alloc, "sign")?,
    })
}

fn tokens_text(alloc: Global, tokens: &[Token]) -> io::Result<String> {
    let mut text = String::new(alloc);
    for token in tokens {
        if !text.is_empty() {
            text.push_str(" ")?;
        }
        let Token { kind, at, len } = *token;
        let kind = kind_text(alloc, kind)?;
        write!(text, "{kind}@{at}+{len}")?;
    }
    Ok(text)
}

/// The tokens of a text, or where it is refused.
pub fn answer(alloc: Global, text: &[u8]) -> io::Result<String> {
    match lex(alloc, text) {
        Ok(tokens) if tokens.is_empty() => Ok(String::from_str(alloc, "nothing")?),
        Ok(tokens) => tokens_text(alloc, tokens.as_slice()),
        Err(LexFault::Bad { at }) => Ok(format!(in alloc; "refused at {at}")?),
        Err(LexFault::Memory) => Err(io::Error::from(io::ErrorKind::OutOfMemory)),
    }
}
