// An element file that the reader accepts, with its shape.
ghost use Rattle.files_results.specs.Requests.{Accepted};

use files_formats::Shape;

// The bytes of a file, and the shape that the reader found.
#[derive(Clone, Copy)]
pub struct ElementFile<'a> {
    pub bytes: &'a [u8],
    pub shape: Shape,
    ghost accepted: { Accepted bytes.now shape },
}
