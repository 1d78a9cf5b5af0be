// Layer 5: the writer of an element file: judges three runs of words, then writes them as a file.
#![tactic(auto)]

ghost use Rattle.std.specs.Prelude.{◌≡◌, ◌+◌, ◌*◌, ◌≤◌, length, ◌∷◌, Ok};
ghost use Rattle.files_words.specs.Bytes.{put, as_bytes};
ghost use Rattle.files_checks.specs.Checks.{◌⟫◌};
ghost use Rattle.files_formats.specs.Shapes.{count_of, place_of, end_of};
ghost use Rattle.files.specs.Writer.{runs_of, runs_in, records_in, shape_by, whole_check, counted_by, counts_shape, room_check, word_checks, write_check};
ghost use Rattle.files.specs.Writer.{words_by, writing_of, room_of, Fits};

use bits::Refusal;
use files_checks::{Fault, need};
use files_formats::{Edition, Section, Shape, check_run, limit, width};
use files_words::{put_word, put_words};

// The three sections, as runs of words.
#[derive(Clone, Copy)]
struct Sections<'a> {
    centres: &'a [u64],
    states: &'a [u64],
    requests: &'a [u64],
}

// 27: a run is not whole records.
fn check_whole(edition: Edition, section: Section, words: usize) -> Result<(), Fault>
    ensures { result ≡ whole_check edition section words }
{
    let rest = words % width(edition, section);
    need(rest == 0, Refusal::NotWholeRecords, section as usize)
}

// 23: a count above its limit; else the shape with the count of so many words.
fn count_records(shape: Shape, section: Section, words: usize) -> Result<Shape, Fault>
    ensures { result ≡ counted_by shape section (records_in shape.edition section words) }
{
    let count = words / width(shape.edition, section);
    let few = count <= limit(section) as usize;
    need(few, Refusal::TooMany, shape.place(section))?;
    Ok(shape.with(section, count as u16))
}

// 27, then 23: the shape of the file that the sections make.
#[tactic(auto, unfolding(crate::specs::Writer::each))]
fn shape_by(edition: Edition, sections: Sections) -> Result<Shape, Fault>
    ensures { result ≡ counts_shape edition (runs_in sections.entry) }
{
    check_whole(edition, Section::Centres, sections.centres.len())?;
    check_whole(edition, Section::States, sections.states.len())?;
    check_whole(edition, Section::Requests, sections.requests.len())?;
    let none = Shape {
        edition,
        centres: 0,
        states: 0,
        requests: 0,
    };
    let one = count_records(none, Section::Centres, sections.centres.len())?;
    let two = count_records(one, Section::States, sections.states.len())?;
    count_records(two, Section::Requests, sections.requests.len())
}

// 24: a number not in its section; then 26: less room than the file needs.
#[tactic(auto, unfolding(crate::specs::Writer::each))]
fn check_words(shape: Shape, sections: Sections, room: usize) -> Result<(), Fault>
    ensures { result ≡ (word_checks shape (runs_in sections.entry) ⟫ room_check (end_of shape) room) }
{
    check_run(sections.centres, shape, Section::Centres)?;
    check_run(sections.states, shape, Section::States)?;
    check_run(sections.requests, shape, Section::Requests)?;
    let size = shape.end();
    need(size <= room, Refusal::RoomTooShort, size)
}

// 27, 23, 24, 26: the first refusal of the writer, or the shape of the file.
#[tactic(auto, unfolding(crate::specs::Writer::write_check))]
fn judge(edition: Edition, sections: Sections, room: usize) -> Result<Shape, Fault>
    ensures { result ≡ (write_check edition (runs_in sections.entry) room ⟫ Ok (shape_by edition (runs_in sections.entry))) }
{
    let shape = shape_by(edition, sections)?;
    check_words(shape, sections, room)?;
    Ok(shape)
}

// A section put where a shape has it: its count, then its words.
fn put_section(room: &mut [u8], shape: Shape, section: Section, run: &[u64])
    requires { place_of shape section + 8 * (1 + length run.now) ≤ length room.old }
    ensures { room.new ≡ put room.old (place_of shape section) (as_bytes (count_of shape section ∷ run.now)) }
{
    let place = shape.place(section);
    put_word(room, place, shape.count(section) as u64);
    put_words(room, place + 8, run);
}

// A whole file put at the start of a room.
fn put_file(room: &mut [u8], shape: Shape, sections: Sections)
    requires { Fits shape (runs_in sections) (length room.old) }
    ensures { room.new ≡ put room.old 0 (as_bytes (words_by shape (runs_in sections.entry))) }
{
    put_word(room, 0, u64::from(shape.edition));
    put_section(room, shape, Section::Centres, sections.centres);
    put_section(room, shape, Section::States, sections.states);
    put_section(room, shape, Section::Requests, sections.requests);
}

// The three sections written as an element file at the start of a room: its length, or the first refusal, and then nothing is written.
// The runs are three parameters, as the C call has them.
#[tactic(auto, unfolding(crate::specs::Writer::writing_of, crate::specs::Writer::room_of, crate::specs::Writer::file_of))]
pub fn write_file(
    edition: Edition,
    centres: &[u64],
    states: &[u64],
    requests: &[u64],
    room: &mut [u8],
) -> Result<usize, Fault>
    ensures answer { result ≡ writing_of edition (runs_of centres.now states.now requests.now) room.old }
    ensures room { room.new ≡ room_of edition (runs_of centres.now states.now requests.now) room.old }
{
    let sections = Sections {
        centres,
        states,
        requests,
    };
    let shape = judge(edition, sections, room.len())?;
    put_file(room, shape, sections);
    Ok(shape.end())
}
