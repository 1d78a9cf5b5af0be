// The shape of an element file: its edition and how many records each section has; and where everything stands in it.
ghost use Rattle.std.specs.Prelude.{◌≡◌, ◌+◌, ◌*◌, ◌^◌, ◌<◌};
ghost use Rattle.files_formats.specs.Elements.{width_of};
ghost use Rattle.files_formats.specs.Shapes.{count_of, below_of, span_of, place_of, record_of, end_of, with_count};

use crate::elements::{Edition, Section, width};

#[derive(Clone, Copy, Debug, PartialEq, Eq)]
pub struct Shape {
    pub edition: Edition,
    pub centres: u16,
    pub states: u16,
    pub requests: u16,
}

// The bytes of so many records.
fn bytes_of(edition: Edition, section: Section, count: u16) -> usize
    ensures { (result ≡ 8 * (count * width_of edition section)) × (result < 2 ^ 24) }
{
    8 * (count as usize * width(edition, section))
}

impl Shape {
    // How many records a section has.
    pub fn count(self, section: Section) -> u16
        ensures { result ≡ count_of self section }
    {
        match section {
            Section::Centres => self.centres,
            Section::States => self.states,
            Section::Requests => self.requests,
        }
    }

    // How many records there are that a section's numbers are held to.
    pub fn below(self, section: Section) -> u16
        ensures { result ≡ below_of self section }
    {
        match section {
            Section::Centres => 0,
            Section::States => self.centres,
            Section::Requests => self.states,
        }
    }

    // The bytes of a section with its count word.
    fn span(self, section: Section) -> usize
        ensures { (result ≡ span_of self section) × (result < 2 ^ 25) }
    {
        let edition = self.edition;
        8 + bytes_of(edition, section, self.count(section))
    }

    // Where a section's count word stands.
    pub fn place(self, section: Section) -> usize
        ensures { (result ≡ place_of self section) × (result < 2 ^ 27) }
    {
        match section {
            Section::Centres => 8,
            Section::States => 8 + self.span(Section::Centres),
            Section::Requests => 8 + self.span(Section::Centres) + self.span(Section::States),
        }
    }

    // Where record i of a section stands.
    pub fn record(self, section: Section, i: u16) -> usize
        ensures { (result ≡ record_of self section i) × (result < 2 ^ 28) }
    {
        let edition = self.edition;
        self.place(section) + 8 + bytes_of(edition, section, i)
    }

    // Where the file ends.
    pub fn end(self) -> usize
        ensures { (result ≡ end_of self) × (result < 2 ^ 28) }
    {
        self.place(Section::Requests) + self.span(Section::Requests)
    }

    // The shape with so many records of a section.
    pub fn with(self, section: Section, count: u16) -> Shape
        ensures { result ≡ with_count self section count }
    {
        match section {
            Section::Centres => Shape {
                centres: count,
                ..self
            },
            Section::States => Shape {
                states: count,
                ..self
            },
            Section::Requests => Shape {
                requests: count,
                ..self
            },
        }
    }
}
