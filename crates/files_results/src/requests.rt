// Layer 5: from a request of an element file to its eight words.
ghost use Rattle.std.specs.Prelude.{◌≡◌, ◌^◌, ◌<◌};
ghost use Rattle.files_results.specs.Requests.{tau_of, field, eight_words, request_words};

use crate::accepted::ElementFile;
use bits::words::{double_of, word_of};
use files_formats::{Column, Edition, Section, column_at};
use files_words::word_at;

// The word of tau: time less epoch.
pub fn tau_of(time: u64, epoch: u64) -> u64
    ensures { result ≡ tau_of time epoch }
{
    word_of(double_of(time) - double_of(epoch))
}

// Word n of the record at a place.
fn field(file: &[u8], at: usize, n: usize) -> u64
    requires { (at < 2 ^ 28) × (n < 2 ^ 28) }
    ensures { result ≡ field file.now at n }
{
    word_at(file, at + 8 * n)
}

// The eight words of a request that stands at one place, of a state at another, of a centre at a third.
fn eight_words(
    file: &[u8],
    edition: Edition,
    request: usize,
    state: usize,
    centre: usize,
) -> [u64; 8]
    requires { (request < 2 ^ 28) × (state < 2 ^ 28) × (centre < 2 ^ 28) }
    ensures { result ≡ eight_words file.now edition request state centre }
{
    let mu = column_at(edition, Column::Mu);
    let x = column_at(edition, Column::Position);
    let vx = column_at(edition, Column::Velocity);
    let time = column_at(edition, Column::Time);
    let epoch = column_at(edition, Column::Epoch);
    [
        field(file, centre, mu),
        field(file, state, x),
        field(file, state, x + 1),
        field(file, state, x + 2),
        field(file, state, vx),
        field(file, state, vx + 1),
        field(file, state, vx + 2),
        tau_of(field(file, request, time), field(file, state, epoch)),
    ]
}

// The eight words of request k of an accepted file.
pub fn request_words(file: ElementFile<'_>, k: u16) -> [u64; 8]
    requires { k < file.shape.requests }
    ensures { result ≡ request_words file.entry.bytes.now file.entry.shape k }
{
    let ElementFile { bytes, shape } = file;
    let edition = shape.edition;
    let request = shape.record(Section::Requests, k);
    let s = field(bytes, request, column_at(edition, Column::State));
    let state = shape.record(Section::States, s as u16);
    let c = field(bytes, state, column_at(edition, Column::Centre));
    let centre = shape.record(Section::Centres, c as u16);
    eight_words(bytes, edition, request, state, centre)
}
