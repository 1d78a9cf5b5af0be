// A whole input into a room.
ghost use Rattle.streams.specs.Calls.{InRoom};

use super::calls::{Mover, move_whole};
use std::io;
use std::io::Read;

// A reader, and the room for what it gives.
#[derive(Drop)]
struct Input<'a, R> {
    reader: &'a mut R,
    room: &'a mut [u8],
}

impl<R: Read> Mover for Input<'_, R> {
    ghost use Rattle.std.specs.Prelude.{◌≤◌, length};
    ghost use Rattle.std.proofs.Math.Nat.{le_refl};

    ghost size = { λ input. length input.room.now };

    // A part of the room may stay free.
    ghost suffices = { λ size moved. moved ≤ size };

    ghost all_suffice = { le_refl };

    fn size(&self) -> usize {
        self.room.len()
    }

    fn move_some(&mut self, behind: usize) -> io::Result<usize> {
        self.reader.read(&mut self.room[behind..])
    }

    fn stopped(&self, moved: usize) -> io::Result<usize> {
        Ok(moved)
    }
}

// Reads until the input ends or the room is full. The bytes stand at the start of the room. A call that fails is not the end.
pub fn read_whole<R: Read>(reader: &mut R, room: &mut [u8]) -> io::Result<usize>
    ensures { InRoom result room.new }
{
    move_whole(&mut Input { reader, room })
}
