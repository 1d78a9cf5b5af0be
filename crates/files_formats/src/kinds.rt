// What a word of a section may be.
ghost use Rattle.std.specs.Prelude.{◌≡◌, []};
ghost use Rattle.files_formats.specs.Kinds.{asks, fault_of};

use bits::Refusal;

// A figure, of any bits; the number of a record of another section.
#[derive(Clone, Copy, Debug, PartialEq, Eq)]
pub enum Kind {
    Figure,
    Number,
}

// Whether anything is asked of a kind's words.
pub fn asks(kind: Kind) -> bool
    ensures { result ≡ asks kind }
{
    match kind {
        Kind::Figure => false,
        Kind::Number => true,
    }
}

// The refusal of a word by its kind; `below` is how many records its number may be one of.
pub fn fault(kind: Kind, below: usize, word: u64) -> Option<Refusal>
    ensures { result ≡ fault_of kind below [] word }
{
    match kind {
        Kind::Number if below as u64 <= word => Some(Refusal::NoSuchRecord),
        Kind::Figure | Kind::Number => None,
    }
}
