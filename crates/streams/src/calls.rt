// What to do after a call of read or write, and the loop over such calls.
ghost use Rattle.std.specs.Prelude.{◌≡◌, ℕ, ◌+◌, ◌-◌, ◌<◌, ◌≤◌, IfOk};
ghost use Rattle.std.specs.declared.ops.ControlFlow.TheVariants.{Continue};
ghost use Rattle.streams.specs.declared.calls.Left.{Left};
ghost use Rattle.streams.specs.Calls.{Part, after_of};

use std::io;
use std::io::ErrorKind;
use std::ops::ControlFlow;

// What a loop has left: so many bytes to move, and patience for so many signals.
#[derive(Clone, Copy)]
pub struct Left {
    pub bytes: usize,
    pub patience: u64,
}

// How often a loop asks again after a signal. A loop that is proved has to end, and nothing says that
// signals do.
const PATIENCE: u64 = 1_000_000;

// What moves a run of bytes: a reader with the room for them, or a writer with the bytes.
pub trait Mover {
    // How many bytes there are to move.
    ghost size: { Self → ℕ };

    // What so many bytes that were moved have to be of those that there were.
    ghost suffices: { (size moved : ℕ) → Type 0 };

    fn size(&self) -> usize
        ensures { result ≡ size self.now };

    // One call, for the bytes behind the first ones.
    fn move_some(&mut self, behind: usize) -> io::Result<usize>
        requires { behind ≤ size self.old }
        ensures part { Part result (size self.old - behind) }
        ensures same_size { size self.new ≡ size self.old };

    // What is answered where the other side has no more to give or to take.
    fn stopped(&self, moved: usize) -> io::Result<usize>
        requires { moved ≤ size self.now }
        ensures { IfOk result (suffices (size self.now)) };

    ghost all_suffice: { (size : ℕ) → suffices size size };
}

// What to do after a call, with so much left before it: go on with what is left then, stop, since the other side has no more to give or to take, or give up.
pub fn after(call: io::Result<usize>, left: Left) -> ControlFlow<io::Result<()>, Left>
    requires { Part call left.bytes }
    ensures next { result ≡ after_of call left }
    ensures sooner { (rest : Left) → result ≡ Continue rest →
        (rest.bytes ≤ left.bytes) × (rest.bytes + rest.patience < left.bytes + left.patience) }
{
    match call {
        Ok(0) => ControlFlow::Break(Ok(())),
        Ok(n) => ControlFlow::Continue(Left {
            bytes: left.bytes - n,
            ..left
        }),
        Err(error) if error.kind() == ErrorKind::Interrupted && left.patience > 0 => {
            ControlFlow::Continue(Left {
                patience: left.patience - 1,
                ..left
            })
        }
        Err(error) => ControlFlow::Break(Err(error)),
    }
}

// Moves bytes until all are moved, the other side has no more to give or to take, or a call fails. Answers how many were moved. A `while`, since nobody knows
// how many turns it takes: a call moves as much as it likes.
pub fn move_whole<M: Mover>(mover: &mut M) -> io::Result<usize>
    ensures { IfOk result (M.suffices (M.size mover.old)) }
{
    let size = mover.size();
    let mut left = Left {
        bytes: size,
        patience: PATIENCE,
    };
    while left.bytes > 0 {
        let n = size - left.bytes;
        match after(mover.move_some(n), left) {
            ControlFlow::Continue(rest) => left = rest,
            ControlFlow::Break(Ok(())) => return mover.stopped(n),
            ControlFlow::Break(Err(error)) => return Err(error),
        }
    }
    Ok(size - left.bytes)
}
