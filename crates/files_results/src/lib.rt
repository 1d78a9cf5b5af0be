// Layer 5: from an element file to its result file.
#![tactic(auto)]

ghost use Rattle.std.specs.Prelude.{◌≡◌, ◌<◌, ◌≤◌, length, leb};
ghost use Rattle.bits.specs.declared.refusal.Refusal.TheVariants.{RoomTooShort};
ghost use Rattle.bits.specs.Refusal.{number_of};
ghost use Rattle.files_words.specs.Bytes.{as_bytes, put};
ghost use Rattle.files_checks.specs.Checks.{need};
ghost use Rattle.files_formats.specs.Rows.{result_place};
ghost use Rattle.files_results.specs.Results.{sections_words, refused_file, result_file, outcome_in, outcome_of, with_row, with_rows};

use accepted::ElementFile;
use bits::Refusal;
use files_checks::{Fault, need};
use files_formats::rows::{
    MOST_RESULTS, REFUSED_WORDS, RESULT_COUNT_PLACE, RESULT_EDITION, RESULT_WIDTH,
};
use files_words::put_words;

mod accepted;
mod requests;

pub use requests::tau_of;

// The bytes of the longest result file, that of the most requests.
pub const LONGEST_RESULT: usize = RESULT_COUNT_PLACE
    + 8
    + 8 * (MOST_RESULTS as usize * RESULT_WIDTH);

// Where row k stands, and how many bytes the rows before it and the head take.
fn row_place(k: u16) -> usize
    ensures { result ≡ result_place k }
{
    RESULT_COUNT_PLACE + 8 + 8 * (k as usize * RESULT_WIDTH)
}

// The row of a request, put at its place.
fn put_row(file: ElementFile<'_>, k: u16, room: &mut [u8])
    requires { k < file.shape.requests }
    ensures { room.new ≡ with_row file.entry.bytes.now file.entry.shape k room.old }
{
    let answer = states::propagate(requests::request_words(file, k));
    let words = states::words_of(answer);
    put_words(room, row_place(k), &words[..RESULT_WIDTH]);
}

// The rows of all requests, one after another.
fn put_rows(file: ElementFile<'_>, room: &mut [u8])
    requires { result_place file.shape.requests ≤ length room.old }
    ensures { room.new ≡ with_rows file.entry.bytes.now file.entry.shape file.entry.shape.requests room.old }
{
    for k in 0..file.shape.requests {
        put_row(file, k, room);
    }
}

// A room for so many bytes, or 26 with them.
fn check_room(room: &[u8], size: usize) -> Result<(), Fault>
    ensures { result ≡ need (leb size (length room.now)) RoomTooShort size }
{
    need(size <= room.len(), Refusal::RoomTooShort, size)
}

// The result file of an accepted file, and its size in bytes.
fn write_accepted(file: ElementFile<'_>, room: &mut [u8]) -> Result<usize, Fault>
    ensures outcome { result ≡ outcome_in (as_bytes (sections_words file.entry.bytes.now file.entry.shape)) room.old }
    ensures room { room.new ≡ put room.old 0 (as_bytes (sections_words file.entry.bytes.now file.entry.shape)) }
{
    let n = file.shape.requests;
    let size = row_place(n);
    check_room(room, size)?;
    put_words(room, 0, &[RESULT_EDITION, n as u64]);
    put_rows(file, room);
    Ok(size)
}

// The three words of a file that is refused, and their size in bytes.
fn write_refused(refusal: Refusal, room: &mut [u8]) -> Result<usize, Fault>
    ensures outcome { result ≡ outcome_in (as_bytes (refused_file (number_of refusal))) room.old }
    ensures room { room.new ≡ put room.old 0 (as_bytes (refused_file (number_of refusal))) }
{
    let size = 8 * REFUSED_WORDS;
    check_room(room, size)?;
    put_words(room, 0, &[RESULT_EDITION, 0, u64::from(refusal)]);
    Ok(size)
}

// The result file of an element file, to a room, and its size in bytes; where the room is too short, nothing is changed, and the place is the size needed.
pub fn write_results(file: &[u8], room: &mut [u8]) -> Result<usize, Fault>
    ensures outcome { result ≡ outcome_of file.now room.old }
    ensures room { room.new ≡ put room.old 0 (result_file file.now) }
{
    match files_reader::read_file(file) {
        Ok(shape) => write_accepted(ElementFile { bytes: file, shape }, room),
        Err(fault) => write_refused(fault.refusal, room),
    }
}
