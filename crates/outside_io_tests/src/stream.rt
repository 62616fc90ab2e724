ghost use Rattle.std.specs.Prelude.{◌≡◌, ◌<◌, []};

use bits_ip::TextOut;
use outside_io::{Block, Failed, MemSink, Stream};
use std::alloc::Global;
use std::test::Fail;

/// 40,000 bytes, which are all different from their neighbours.
fn long_text(alloc: Global) -> Result<Vec<u8>, Fail> {
    let mut bytes = vec![in alloc; 0u8; 40_000]?;
    for (place, byte) in bytes.iter_mut().enumerate() {
        *byte = (place % 251) as u8;
    }
    Ok(bytes)
}

/// Puts a text into a stream to the sink, so many bytes at a time.
fn put_all(stream: &mut Stream<'_, MemSink>, text: &[u8], piece: usize)
    requires { 0 < piece }
{
    for part in text.chunks(piece) {
        match stream.put(part) {
            Ok(()) => {}
            Err(never) => match never {},
        }
    }
}

fn send(block: Block, text: &[u8], piece: usize, sink: &mut MemSink) -> Result<(), Failed>
    requires block { block.bytes.items ≡ [] }
    requires piece { 0 < piece }
{
    let mut stream = Stream::new(block, sink);
    put_all(&mut stream, text, piece);
    stream.finish()
}

#[test]
fn a_text_is_handed_on_by_blocks(rt: HostRuntime) -> Result<(), Fail> {
    let alloc = rt.alloc();
    let text = long_text(alloc)?;
    for (failing, taken, is_ok) in [
        (1, 0, false),
        (2, 16_384, false),
        (3, 32_768, false),
        (4, 40_000, true),
    ] {
        for piece in [1, 7, 16_384, 40_000] {
            let mut sink = MemSink::new(alloc);
            sink.failing.push(failing)?;
            let sent = send(Block::make(alloc)?, &text, piece, &mut sink);
            assert_eq!(rt; sent.is_ok(), is_ok, "{failing} {piece}");
            assert_eq!(rt; sink.calls, failing.min(3), "{failing} {piece}");
            assert_eq!(rt; sink.bytes.len(), taken, "{failing} {piece}");
            assert!(rt;
                text.starts_with(sink.bytes.as_slice()),
                "{failing} {piece}"
            );
        }
    }
    Ok(())
}
