// The check of a section of a file, by its table.
ghost use Rattle.std.specs.Prelude.{◌≡◌, [], ◌+◌, ◌*◌, ◌^◌, ◌<◌, ◌≤◌, length};
ghost use Rattle.files_words.specs.Bytes.{words_from};
ghost use Rattle.files_checks.specs.Checks.{walk};
ghost use Rattle.files_formats.specs.Kinds.{ruling_of};
ghost use Rattle.files_formats.specs.Elements.{kinds_of};
ghost use Rattle.files_formats.specs.Shapes.{below_of, section_check};

use crate::elements::{Section, limit, width};
use crate::firsts::first_fault;
use crate::shapes::Shape;
use bits::Refusal;
use files_checks::{Fault, check_count, need, words_there};
use files_words::word_at;

// The walk over so many words from a place on, by the table of their section.
fn walk_words(
    file: &[u8],
    shape: Shape,
    section: Section,
    place: usize,
    words: usize,
) -> Result<(), Fault>
    requires { (place ≤ length file.now) × (place + 8 * words < 2 ^ 64) }
    ensures { result ≡ walk (ruling_of (kinds_of shape.edition section) (below_of shape section)) place [] words (words_from file.now place) }
{
    let (whole, _) = file[place..].as_chunks::<8>();
    let there = &whole[..words_there(file, place, words)];
    match first_fault(there, shape, section) {
        Some(found) => Err(Fault {
            refusal: found.refusal,
            place: place + 8 * found.at,
        }),
        None => need(
            words <= there.len(),
            Refusal::WordMissing,
            place + 8 * there.len(),
        ),
    }
}

// A section of a file: its count within its limit, then that many records, each word as its column's kind asks. The shape says where the section stands.
pub fn check_section(file: &[u8], shape: Shape, section: Section) -> Result<(), Fault>
    ensures { result ≡ section_check file.now shape section }
{
    let place = shape.place(section);
    check_count(file, place, limit(section))?;
    let words = word_at(file, place) as usize * width(shape.edition, section);
    walk_words(file, shape, section, place + 8, words)
}
