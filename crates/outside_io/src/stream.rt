//! Text on its way to a sink, a block at a time.
ghost use Rattle.std.specs.Prelude.{◌≡◌, ◌≤◌, ◌++◌, ◌+◌, [], List, ℕ, Option, true, false, vec_capacity, vec_len, length, IfOk, OnOk, OnErr};
ghost use Rattle.std.specs.Io.KnownBytes.{Appends};
ghost use Rattle.outside_io.specs.Faults.{Rose};
ghost use Rattle.outside_io.specs.Reached.{Reached, block_size};
ghost use Rattle.outside_io.specs.Whole.{WritesFront};

use crate::{Failed, Sink, write_whole};
use bits_ip::{OutOfMemory, TextOut};
use http_server::Log;
use std::alloc::Global;
use std::convert::Infallible;

/// How many bytes are held back at most.
const BLOCK: usize = 1 << 14;

/// Room for the text that a stream holds back.
#[derive(Debug, Drop)]
pub struct Block {
    bytes: Vec<u8>,
    ghost room: { block_size ≤ vec_capacity bytes },
}

impl Block {
    /// `OutOfMemory` comes where memory is refused.
    pub fn make(alloc: Global) -> Result<Block, OutOfMemory>
        ensures { IfOk result (λ block. block.bytes.items ≡ []) }
    {
        let bytes = Vec::with_capacity(alloc, BLOCK)?;
        Ok(Block { bytes })
    }

    fn clear(&mut self)
        ensures { self.new.bytes.items ≡ [] }
    {
        self.bytes.clear();
    }

    /// Holds a piece that has room.
    fn hold(&mut self, piece: &[u8])
        requires { vec_len self.old.bytes + length piece.now ≤ block_size }
        ensures { self.new.bytes.items ≡ self.old.bytes.items ++ piece.now }
    {
        self.bytes.extend_from_slice(piece).unwrap();
    }
}

/// Takes text for a sink, and hands it on in blocks. It needs no memory.
///
/// Where the sink fails, text is still taken, and none is handed on any more: `finish` tells.
#[derive(Drop)]
pub struct Stream<'a, K> {
    sink: &'a mut K,
    block: Block,
    failed: bool,
    /// What has left the block, for proofs alone.
    gone: Log<Vec<u8>, ()>,
}

impl<'a, K: Sink> Stream<'a, K> {
    ghost use Rattle.bits_ip.specs.Out.{Kept};
    ghost use Rattle.outside_io.specs.Stream.{Follows, IsFinished, IsFresh, gone_text, taken_text};

    /// A stream to the sink that has taken nothing yet.
    pub fn new(block: Block, sink: &'a mut K) -> Stream<'a, K>
        requires { block.bytes.items ≡ [] }
        ensures same { result.sink.ghost_name ≡ sink.entry.ghost_name }
        ensures sink { result.sink.now ≡ sink.old }
        ensures fresh { IsFresh result }
        ensures begins { Follows K.contents K.faults result result }
    {
        Stream {
            sink,
            block,
            failed: false,
            gone: Log::new(),
        }
    }

    /// Hands on what is held back, and tells whether all that was taken has reached the sink. Where
    /// not, a front of it has.
    pub fn finish(&mut self) -> Result<(), Failed>
        ensures finished { IsFinished result self.new }
        ensures taken { taken_text self.new ≡ taken_text self.old }
        ensures kept { Kept (Follows K.contents K.faults) self.old self.new }
    {
        self.flush();
        if self.failed { Err(Failed) } else { Ok(()) }
    }

    /// The sink.
    pub fn into_sink(self) -> &'a mut K
        ensures { result ≡ self.entry.sink }
    {
        self.sink
    }

    /// Holds back a piece that has room.
    fn hold(&mut self, piece: &[u8])
        requires { vec_len self.old.block.bytes + length piece.now ≤ block_size }
        ensures taken { taken_text self.new ≡ taken_text self.old ++ piece.now }
        ensures len { vec_len self.new.block.bytes
            ≡ vec_len self.old.block.bytes + length piece.now }
        ensures kept { Kept (Follows K.contents K.faults) self.old self.new }
    {
        self.block.hold(piece);
    }

    /// Holds back as much as has room, hands it on, and so on.
    fn put_in_parts(&mut self, piece: &[u8])
        ensures taken { taken_text self.new ≡ taken_text self.old ++ piece.now }
        ensures kept { Kept (Follows K.contents K.faults) self.old self.new }
    {
        let mut rest = piece;
        while !rest.is_empty() {
            if self.block.bytes.len() >= BLOCK {
                self.flush();
            }
            let count = rest.len().min(BLOCK - self.block.bytes.len());
            self.hold(&rest[..count]);
            rest = &rest[count..];
        }
    }

    /// Hands on what is held back.
    fn flush(&mut self)
        ensures empty { self.new.block.bytes.items ≡ [] }
        ensures gone { gone_text self.new ≡ taken_text self.old }
        ensures kept { Kept (Follows K.contents K.faults) self.old self.new }
    {
        self.failed = send(self.sink, self.failed, &self.block.bytes);
        self.gone = self.gone.and(&self.block.bytes, &());
        self.block.clear();
    }
}

/// Writes a block to a sink that hasn't failed, and tells whether it has by now.
fn send<K: Sink>(sink: &mut K, failed: bool, block: &[u8]) -> bool
    ensures later { K.faults sink.old ≤ K.faults sink.new }
    ensures sent { (first : Option (List ℕ)) (before : ℕ) (gone : List ℕ)
        → before ≤ K.faults sink.old
        → Reached first (K.contents sink.old) before (K.faults sink.old) failed gone
        → Reached first (K.contents sink.new) before (K.faults sink.new) result
        (gone ++ block.now) }
{
    if failed {
        return true;
    }
    write_whole(sink, block).is_err()
}

impl<K: Sink> TextOut for Stream<'_, K> {
    ghost use Rattle.outside_io.specs.Stream.{Follows, taken_text};

    type Fault = Infallible;

    ghost written = { taken_text };

    ghost follows = { Follows K.contents K.faults };

    fn put(&mut self, piece: &[u8]) -> Result<(), Infallible> {
        if self.block.bytes.len() + piece.len() <= BLOCK {
            self.hold(piece);
        } else {
            self.put_in_parts(piece);
        }
        Ok(())
    }
}
