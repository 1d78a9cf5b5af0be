// Why a call gives no answer. Each refusal has its number, which is what crosses into C and stands in files; 0 is no refusal.
ghost use Rattle.std.specs.Prelude.{◌≡◌};
ghost use Rattle.bits.specs.Refusal.{number_of};

// The refusals of the documents, and 60, the C interface's own, in the order of their numbers.
#[derive(Clone, Copy, Debug, PartialEq, Eq)]
pub enum Refusal {
    // The run for the partials is not 36 words long.
    PartialsLength = 1,
    // The position is the centre's, or so near that its square is zero.
    AtCentre = 3,
    // A figure of the start is not finite.
    StartNotFinite = 4,
    // All 41 outward points are short.
    AllShort = 5,
    // A point that the search tries is unreadable.
    Unreadable = 6,
    // The distance at the end is not above zero.
    RadiusNotPositive = 7,
    // A division by zero, or a figure of the answer that is not finite.
    EndNotFinite = 8,
    // The root of a number below zero, infinite or a NaN.
    NoRoot = 9,
    // A needed word is not whole.
    WordMissing = 21,
    UnknownEdition = 22,
    // A count above its limit.
    TooMany = 23,
    // A number that is not in its section.
    NoSuchRecord = 24,
    // Bytes are left after the last section or row.
    BytesLeft = 25,
    // A room or a run is too short for what is written to it.
    RoomTooShort = 26,
    // A run is not whole records.
    NotWholeRecords = 27,
    // A word that comes in is an infinity or a NaN.
    MuNotFinite = 31,
    XNotFinite = 32,
    YNotFinite = 33,
    ZNotFinite = 34,
    VxNotFinite = 35,
    VyNotFinite = 36,
    VzNotFinite = 37,
    TauNotFinite = 38,
    // A list does not have one entry for each centre.
    NotOneEach = 41,
    // All states that a run may have are in use, or the state to withdraw is not in use.
    StatesInUse = 42,
    // Two result files do not have the same number of rows.
    CountsDiffer = 51,
    // An answer run is not as long as the answer.
    AnswerLength = 60,
}

impl From<Refusal> for u64 {
    ghost from_gives = { λ refusal number. number ≡ number_of refusal };

    fn from(refusal: Refusal) -> u64 {
        refusal as u64
    }
}
