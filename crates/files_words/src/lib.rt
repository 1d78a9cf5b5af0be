// Little-endian 64-bit words in runs of bytes. A file and a place stay two parameters: a place may be any number, so nothing is known of the two together.
#![tactic(auto)]

ghost use Rattle.std.specs.Prelude.{◌≡◌, ◌+◌, ◌*◌, ◌≤◌, leb, length};
ghost use Rattle.files_words.specs.Bytes.{bytes_of, as_bytes, word_at, put};

// Whether the word at a place is whole: all its eight bytes are there.
pub fn is_whole(file: &[u8], place: usize) -> bool
    ensures { result ≡ leb (place + 8) (length file.now) }
{
    8 <= file.len().saturating_sub(place)
}

// The word at a place, or 0 where it is not whole. It is no Option, since the definition `word_at` and the laws on it give 0.
pub fn word_at(file: &[u8], place: usize) -> u64
    ensures { result ≡ word_at file.now place }
{
    let Some(rest) = file.get(place..) else {
        return 0;
    };
    match rest.first_chunk() {
        Some(bytes) => u64::from_le_bytes(*bytes),
        None => 0,
    }
}

// A word's eight bytes put at a place where there is room for them, lowest first.
fn put_bytes(room: &mut [u8], place: usize, word: u64)
    requires { place + 8 ≤ length room.old }
    ensures { room.new ≡ put room.old place (bytes_of 8 word) }
{
    room[place..place + 8].copy_from_slice(&word.to_le_bytes());
}

// A word put at a place; where there is no room for it, nothing is changed.
pub fn put_word(room: &mut [u8], place: usize, word: u64)
    ensures { room.new ≡ put room.old place (bytes_of 8 word) }
{
    if is_whole(room, place) {
        put_bytes(room, place, word);
    }
}

// The words of a run put one after another from a place on where there is room for them. The room is indexed, since the library does not say what it
// holds after its chunks were lent.
fn put_each(room: &mut [u8], place: usize, run: &[u64])
    requires { place + 8 * length run.now ≤ length room.old }
    ensures { room.new ≡ put room.old place (as_bytes run.now) }
{
    for (j, word) in run.iter().enumerate() {
        put_bytes(room, place + 8 * j, *word);
    }
}

// A run of words put at a place; where there is no room for all of them, nothing is changed.
pub fn put_words(room: &mut [u8], place: usize, run: &[u64])
    ensures { room.new ≡ put room.old place (as_bytes run.now) }
{
    let Some(space) = room.len().checked_sub(place) else {
        return;
    };
    if run.len() <= space / 8 {
        put_each(room, place, run);
    }
}
