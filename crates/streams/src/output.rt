// A whole run of bytes to an output.
ghost use Rattle.streams.specs.Calls.{All};

use super::calls::{Mover, move_whole};
use std::io;
use std::io::{ErrorKind, Write};

// A writer, the bytes for it, and the signal that came last.
#[derive(Drop)]
struct Output<'a, W> {
    writer: &'a mut W,
    bytes: &'a [u8],
    signal: Option<io::Error>,
}

impl<W: Write> Mover for Output<'_, W> {
    ghost use Rattle.std.specs.Prelude.{◌≡◌, length, refl};

    ghost size = { λ output. length output.bytes.now };

    // All of the bytes have to be written.
    ghost suffices = { λ size moved. moved ≡ size };

    ghost all_suffice = { λ _. refl };

    fn size(&self) -> usize {
        self.bytes.len()
    }

    fn move_some(&mut self, behind: usize) -> io::Result<usize> {
        let call = self.writer.write(&self.bytes[behind..]);
        if let Err(error) = call {
            self.signal = Some(error);
        }
        call
    }

    // A writer that took nothing after a signal has the signal for its reason.
    fn stopped(&self, _moved: usize) -> io::Result<usize> {
        Err(self.signal.unwrap_or(io::Error::from(ErrorKind::WriteZero)))
    }
}

// Writes all of the bytes, or stops at a call that fails or takes nothing. Some of the bytes may be written then.
pub fn write_whole<W: Write>(writer: &mut W, bytes: &[u8]) -> io::Result<usize>
    ensures { All result bytes.now }
{
    move_whole(&mut Output {
        writer,
        bytes,
        signal: None,
    })
}
