//! Short pieces of text on their way to another place.
ghost use Rattle.std.specs.Prelude.{◌≡◌, ◌++◌, [], OnOk};
ghost use Rattle.bits_ip.specs.Out.{Kept};

use arrayvec::ArrayVec;
use bits_ip::TextOut;

/// Takes short pieces of text for another place, and puts many of them there at once.
///
/// What is held reaches the place by `send` alone.
#[derive(Drop)]
pub(crate) struct Gather<'a, W> {
    pub(crate) out: &'a mut W,
    held: ArrayVec<u8, 256>,
}

impl<'a, W: TextOut> Gather<'a, W> {
    ghost use Rattle.attrs.specs.Gather.{gathered, Gathers};

    pub(crate) fn new(out: &'a mut W) -> Gather<'a, W>
        ensures same { result.out.ghost_name ≡ out.entry.ghost_name }
        ensures out { result.out.now ≡ out.old }
        ensures empty { result.held.items ≡ [] }
    {
        Gather {
            out,
            held: ArrayVec::new(),
        }
    }

    /// Puts what is held into the place.
    pub(crate) fn send(&mut self) -> Result<(), W::Fault>
        ensures sent { OnOk result (W.written self.new.out.now ≡ gathered W.written self.old) }
        ensures empty { OnOk result (self.new.held.items ≡ []) }
        ensures kept { Kept (Gathers W.follows) self.old self.new }
    {
        self.out.put(self.held.as_slice())?;
        self.held.clear();
        Ok(())
    }
}

impl<W: TextOut> TextOut for Gather<'_, W> {
    ghost use Rattle.attrs.specs.Gather.{gathered, Gathers};

    type Fault = W::Fault;

    ghost written = { gathered W.written };

    ghost follows = { Gathers W.follows };

    fn put(&mut self, piece: &[u8]) -> Result<(), W::Fault> {
        if self.held.try_extend_from_slice(piece).is_ok() {
            return Ok(());
        }
        self.send()?;
        self.out.put(piece)
    }
}
