//! Whole files are read, and whole texts are written, in blocks.
ghost use Rattle.std.specs.Prelude.{◌≡◌, ◌≤◌, ◌<◌, List, ℕ, Err, length, vec_len, IfOk, IfSome, IsErrAnd, IsTrue, OnOk, OnErr};
ghost use Rattle.std.specs.Io.KnownBytes.{Appends};
ghost use Rattle.outside_io.specs.Faults.{Rose, NoneFell, KeepsOthers};
ghost use Rattle.outside_io.specs.Whole.{IsMissing, IsLong, IsWhole, WritesFront};
ghost use Rattle.outside_io.specs.declared.whole.ReadError.TheVariants.{Memory};

use crate::{Failed, Shelf, Sink};
use std::alloc::{AllocError, Global};
use thiserror::Error;

/// How many bytes are read or written at once.
const BLOCK: usize = 1 << 16;

/// The greatest number of bytes of a file.
const LIMIT: usize = 1 << 24;

/// Why a file isn't read to its end.
#[derive(Clone, Copy, Debug, PartialEq, Eq, Drop, Error)]
pub enum ReadError {
    /// The shelf refused a read.
    #[error("read fault")]
    Failed,
    /// The file has over 2^24 bytes.
    #[error("too long")]
    TooLong,
    #[error("out of memory")]
    Memory,
}

impl From<AllocError> for ReadError {
    ghost from_gives = { λ _ error. error ≡ Memory };

    fn from(_: AllocError) -> Self {
        ReadError::Memory
    }
}

fn make_block(alloc: Global, size: usize) -> Result<Vec<u8>, AllocError>
    ensures { IfOk result (λ block. vec_len block ≡ size) }
{
    vec![in alloc; 0u8; size]
}

fn read_blocks<F: Shelf>(
    alloc: Global,
    shelf: &mut F,
    name: &str,
    block: &mut [u8],
) -> Result<Vec<u8>, ReadError>
    requires { 0 < length block.old }
    ensures whole { IfOk result (λ bytes. IsWhole (F.held shelf.old name.now) bytes.items) }
    ensures long { result ≡ Err ReadError.TooLong → IfSome (F.held shelf.old name.now) IsLong }
    ensures cause { result ≡ Err ReadError.Failed → Rose (F.faults shelf.old) (F.faults shelf.new) }
    ensures by_name { result ≡ Err ReadError.Failed
        → Rose (F.missed shelf.old name.now) (F.missed shelf.new name.now) }
    ensures absent { IsTrue (F.lacks shelf.old name.now) → IsErrAnd result IsMissing }
    ensures later { F.faults shelf.old ≤ F.faults shelf.new }
    ensures none_fell { NoneFell (F.missed shelf.old) (F.missed shelf.new) }
    ensures others { KeepsOthers (F.held shelf.old) name.now (F.missed shelf.old) (F.missed shelf.new) }
    ensures held { F.held shelf.new ≡ F.held shelf.old }
    ensures lacks { F.lacks shelf.new ≡ F.lacks shelf.old }
{
    let mut bytes = Vec::new(alloc);
    while bytes.len() <= LIMIT {
        match shelf.read_at(name, bytes.len() as u64, block) {
            Ok(0) => return Ok(bytes),
            Ok(count) => bytes.extend_from_slice(&block[..count])?,
            Err(Failed) => return Err(ReadError::Failed),
        }
    }
    Err(ReadError::TooLong)
}

/// Reads a file to its end, or to the first byte over the limit of 2^24 bytes.
pub fn read_whole<F: Shelf>(alloc: Global, shelf: &mut F, name: &str) -> Result<Vec<u8>, ReadError>
    ensures whole { IfOk result (λ bytes. IsWhole (F.held shelf.old name.now) bytes.items) }
    ensures long { result ≡ Err ReadError.TooLong → IfSome (F.held shelf.old name.now) IsLong }
    ensures cause { result ≡ Err ReadError.Failed → Rose (F.faults shelf.old) (F.faults shelf.new) }
    ensures by_name { result ≡ Err ReadError.Failed
        → Rose (F.missed shelf.old name.now) (F.missed shelf.new name.now) }
    ensures absent { IsTrue (F.lacks shelf.old name.now) → IsErrAnd result IsMissing }
    ensures later { F.faults shelf.old ≤ F.faults shelf.new }
    ensures none_fell { NoneFell (F.missed shelf.old) (F.missed shelf.new) }
    ensures others { KeepsOthers (F.held shelf.old) name.now (F.missed shelf.old) (F.missed shelf.new) }
    ensures held { F.held shelf.new ≡ F.held shelf.old }
    ensures lacks { F.lacks shelf.new ≡ F.lacks shelf.old }
{
    let mut block = make_block(alloc, BLOCK)?;
    read_blocks(alloc, shelf, name, &mut block)
}

/// Writes a whole text. Where the sink fails, or takes nothing, a front of the text is written.
pub fn write_whole<K: Sink>(out: &mut K, text: &[u8]) -> Result<(), Failed>
    ensures whole { OnOk result (Appends (K.contents out.old) (K.contents out.new) text.now) }
    ensures front { OnErr result (WritesFront (K.contents out.old) (K.contents out.new) text.now) }
    ensures cause { OnErr result (Rose (K.faults out.old) (K.faults out.new)) }
    ensures later { K.faults out.old ≤ K.faults out.new }
{
    let mut rest = text;
    while !rest.is_empty() {
        let count = out.write(&rest[..rest.len().min(BLOCK)])?;
        if count == 0 {
            return Err(Failed);
        }
        rest = &rest[count..];
    }
    Ok(())
}
