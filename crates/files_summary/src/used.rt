// The states in use of a run.
ghost use Rattle.files_summary.specs.Entries.{Holds};

use files_formats::Edition;

// A run, the edition of its states, and how many of them are in use: the run has them, and they are no more than a section may have.
#[derive(Clone, Copy)]
pub struct InUse<'a> {
    pub states: &'a [u64],
    pub edition: Edition,
    pub count: usize,
    ghost held: { Holds edition states.now count },
}
