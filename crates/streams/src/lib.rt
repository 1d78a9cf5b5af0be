// A whole input into a room, and a whole run of bytes to an output, over the `read` of any reader and the `write` of any writer.
//
// A call may move fewer bytes than it was asked to, a signal may come before it moves any, and a read that fails is not the end of
// the input: std's `read_exact` fails at both, and does not say how many bytes came before.
#![tactic(auto)]

mod calls;
mod input;
mod output;

pub use input::read_whole;
pub use output::write_whole;
