// Layer 5: the reader of an element file: walks it forward and answers its shape, which says the places and counts of the sections, or the first fault.
#![tactic(auto)]

ghost use Rattle.std.specs.Prelude.{◌≡◌, Ok};
ghost use Rattle.files_checks.specs.Checks.{◌⟫◌};
ghost use Rattle.files_formats.specs.Shapes.{shape_of, section_check};
ghost use Rattle.files_reader.specs.Reader.{edition_in, first_check, grown, reading_of};

use bits::Refusal;
use files_checks::{Fault, check_edition, need};
use files_formats::{Edition, Section, Shape, check_section};
use files_words::word_at;

// The edition: a shape that has no records yet.
fn read_edition(file: &[u8]) -> Result<Shape, Fault>
    ensures { result ≡ (first_check file.now ⟫ Ok (shape_of (edition_in file.now) 0 0 0)) }
{
    let edition = Edition::try_from(word_at(file, 0));
    check_edition(file, edition.is_ok())?;
    Ok(Shape {
        edition: edition.unwrap(),
        centres: 0,
        states: 0,
        requests: 0,
    })
}

// A section: the shape with its count.
fn read_section(file: &[u8], shape: Shape, section: Section) -> Result<Shape, Fault>
    ensures { result ≡ (section_check file.now shape section ⟫ Ok (grown file.now shape section)) }
{
    check_section(file, shape, section)?;
    let count = word_at(file, shape.place(section));
    Ok(shape.with(section, count as u16))
}

// The shape of an element file, or its first fault.
#[tactic(auto, unfolding(crate::specs::Reader::reading_of))]
pub fn read_file(file: &[u8]) -> Result<Shape, Fault>
    ensures { result ≡ reading_of file.now }
{
    let none = read_edition(file)?;
    let centres = read_section(file, none, Section::Centres)?;
    let states = read_section(file, centres, Section::States)?;
    let shape = read_section(file, states, Section::Requests)?;
    let end = shape.end();
    need(file.len() <= end, Refusal::BytesLeft, end)?;
    Ok(shape)
}
