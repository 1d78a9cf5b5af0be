// The check of a section as a run of words, by its table: the words that would follow its count in a file.
ghost use Rattle.std.specs.Prelude.{◌≡◌};
ghost use Rattle.files_formats.specs.Shapes.{run_check};

use crate::elements::Section;
use crate::firsts::first_fault;
use crate::shapes::Shape;
use files_checks::Fault;

// The walk over a run whose words would follow the count word of a section; the shape says where that would stand.
pub fn check_run(run: &[u64], shape: Shape, section: Section) -> Result<(), Fault>
    ensures { result ≡ run_check run.now shape section }
{
    match first_fault(run, shape, section) {
        Some(found) => Err(Fault {
            refusal: found.refusal,
            place: shape.place(section) + 8 + 8 * found.at,
        }),
        None => Ok(()),
    }
}
