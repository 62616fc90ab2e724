//! What is answered to an input.
ghost use Rattle.std.specs.Prelude.{◌<◌, ◌^◌, ◌-◌, length};

use crate::configurations::numbered::numbered;
use crate::configurations::shown::write_checked;
use crate::faults::{bad, no_memory};
use conf_check::{Checked, check_config};
use conf_tree::{ConfFault, place, read_config};
use std::alloc::Global;
use std::io;
use std::io::{Error, ErrorKind};

/// The longest configuration of a case, in bytes.
const LONGEST: usize = 1_000_000;

fn checked(alloc: Global, text: &[u8]) -> Result<Checked, ConfFault>
    requires { length text.now < 2 ^ 32 - 1 }
{
    let config = read_config(alloc, text)?;
    check_config(alloc, &config)
}

fn accepted(alloc: Global, checked: &Checked) -> io::Result<String> {
    let mut out = Vec::new(alloc);
    write_checked(checked, &mut out).map_err(no_memory)?;
    String::from_utf8(out).map_err(|_| bad())
}

fn answer_text(alloc: Global, text: &[u8]) -> io::Result<String>
    requires { length text.now < 2 ^ 32 - 1 }
{
    match checked(alloc, text) {
        Ok(checked) => accepted(alloc, &checked),
        Err(ConfFault::Refused { at, kind }) => {
            let (line, column) = place(text, at.min(text.len()));
            Ok(format!(in alloc; "{line}:{column} {kind}")?)
        }
        Err(ConfFault::Memory) => Err(Error::from(ErrorKind::OutOfMemory)),
    }
}

/// What the configuration of an input comes to, or the line, the column and the kind of its first
/// refusal.
pub fn answer(alloc: Global, input: &[u8]) -> io::Result<String> {
    let text = numbered(alloc, input).map_err(no_memory)?;
    if text.len() > LONGEST {
        return Err(Error::from(ErrorKind::FileTooLarge));
    }
    answer_text(alloc, &text)
}
