//! Configurations: each is accepted, or refused at a line and a column for a kind.
ghost use Rattle.std.specs.Prelude.{◌<◌, ◌^◌, ◌-◌, length};

use conf_tree::{ConfFault, place, read_config};
use std::alloc::Global;
use std::io;
use std::io::{Error, ErrorKind};

/// `accepted`, or the line, the column and the kind of the refusal.
pub fn answer(alloc: Global, text: &[u8]) -> io::Result<String>
    requires { length text.now < 2 ^ 32 - 1 }
{
    match read_config(alloc, text) {
        Ok(_) => Ok(String::from_str(alloc, "accepted")?),
        Err(ConfFault::Refused { at, kind }) => {
            let (line, column) = place(text, at);
            Ok(format!(in alloc; "{line}:{column} {kind}")?)
        }
        Err(ConfFault::Memory) => Err(Error::from(ErrorKind::OutOfMemory)),
    }
}
