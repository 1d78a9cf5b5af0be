// The C face: what control programs call. Every number crosses as its 64-bit word, and every run as a slice, which C hands over as a pointer and a count, so
// no header can shift a field; the names carry the interface's edition, so a header of another edition does not link. `kelubashi_c` exports each of these.
#![tactic(auto)]

mod answers;

ghost use Rattle.std.specs.Prelude.{◌≡◌, [], ◌∷◌, length};
ghost use Rattle.bits.specs.Refusal.{number_in as refusal_in};
ghost use Rattle.bits.specs.Root.{root_refusal_of, root_word_of};
ghost use Rattle.states.specs.Call.{orbit_words, answer_words, refusal_of, propagate_of};
ghost use Rattle.states.specs.WithPartials.{partials_of, lent_of};
ghost use Rattle.files_words.specs.Bytes.{put};
ghost use Rattle.files_results.specs.Requests.{tau_of};
ghost use Rattle.files_results.specs.Results.{outcome_of, result_file};
ghost use Rattle.files_formats.specs.declared.elements.Edition.TheVariants.{One};
ghost use Rattle.files_summary.specs.Entries.{roster_of};
ghost use Rattle.files_summary.specs.Changes.{append, withdraw, summary_refusal, summary_list};
ghost use Rattle.files_check.specs.RowsFile.{judged_of, verdicts_after};
ghost use Rattle.files_compare.specs.Compare.{compare_words, run_after};
ghost use Rattle.kelubashi.specs.Face.{
  returned,
  answer_after,
  lent_behind,
  fault_number,
  read_words,
  results_words,
  number_in,
  write_number,
  write_answer,
  write_room,
  change_made,
  states_made,
  list_made,
  change_words,
  judged_words,
};

use answers::{change_words, fault_number, number_in, reading_words, sized_words};
use bits::Refusal;
use files_formats::Edition;
use files_summary::Roster;

// The states in use of a run, which are edition 1's, and the centres beside them.
fn roster_of(count: u64, centres: u64) -> Roster
    ensures { result ≡ roster_of One count centres }
{
    Roster {
        edition: Edition::One,
        count,
        centres,
    }
}

// Each call tests the length of its answer run by itself. A function that took the rest of a call as a closure could not promise that a lent run stays as it
// was where the closure isn't called, and a run that `try_from` makes an array is not known to be that run any more: both were tried, and don't prove.

// The square root of the double of a word, to an answer run of one word.
#[tactic(auto, using(bits::proofs::Computed::answered, crate::proofs::OneWord::one_word))]
pub fn kelubashi1_root(word: u64, answer: &mut [u64]) -> u64
    ensures number { result ≡ returned 1 answer.old (root_refusal_of word) }
    ensures answer { answer.new ≡ answer_after 1 answer.old (root_word_of word ∷ []) }
{
    if answer.len() != 1 {
        return Refusal::AnswerLength.into();
    }
    let root = bits::root::root_of(word);
    // A single word is stored by its index, here and in the interval: a copy of one takes six instructions more.
    answer[0] = root.unwrap_or(0);
    number_in(root)
}

// Position, velocity and accelerations of eight words, to an answer run of fifteen words.
#[tactic(auto, unfolding(bits::specs::Runs::copied, states::specs::Call::answer_words))]
pub fn kelubashi1_propagate(
    mu: u64,
    x: u64,
    y: u64,
    z: u64,
    vx: u64,
    vy: u64,
    vz: u64,
    tau: u64,
    answer: &mut [u64],
) -> u64
    ensures number { result ≡ returned 15 answer.old (refusal_of (propagate_of (orbit_words mu x y z vx vy vz tau))) }
    ensures answer { answer.new ≡ answer_after 15 answer.old (answer_words (propagate_of (orbit_words mu x y z vx vy vz tau))) }
{
    if answer.len() != 15 {
        return Refusal::AnswerLength.into();
    }
    let words = states::words_of(states::propagate([mu, x, y, z, vx, vy, vz, tau]));
    bits::copy_words(&words, answer);
    words[0]
}

// The same, with the 36 partials to a lent run.
#[tactic(auto, unfolding(bits::specs::Runs::copied, states::specs::Call::answer_words))]
pub fn kelubashi1_partials(
    mu: u64,
    x: u64,
    y: u64,
    z: u64,
    vx: u64,
    vy: u64,
    vz: u64,
    tau: u64,
    answer: &mut [u64],
    run: &mut [u64],
) -> u64
    ensures number { result ≡ returned 15 answer.old (refusal_of (partials_of (orbit_words mu x y z vx vy vz tau) run.old)) }
    ensures answer { answer.new
        ≡ answer_after 15 answer.old (answer_words (partials_of (orbit_words mu x y z vx vy vz tau) run.old)) }
    ensures lent { run.new
        ≡ lent_behind 15 answer.old run.old (lent_of (orbit_words mu x y z vx vy vz tau) run.old) }
{
    if answer.len() != 15 {
        return Refusal::AnswerLength.into();
    }
    let answered = states::propagate_with_partials([mu, x, y, z, vx, vy, vz, tau], run);
    let words = states::words_of(answered);
    bits::copy_words(&words, answer);
    words[0]
}

// Where the sections of an element file stand, to an answer run of eight words.
#[tactic(auto, unfolding(bits::specs::Runs::copied))]
pub fn kelubashi1_read(file: &[u8], answer: &mut [u64]) -> u64
    ensures number { result ≡ returned 8 answer.old (number_in (read_words file.now)) }
    ensures answer { answer.new ≡ answer_after 8 answer.old (read_words file.now) }
{
    if answer.len() != 8 {
        return Refusal::AnswerLength.into();
    }
    let words = reading_words(files_reader::read_file(file));
    bits::copy_words(&words, answer);
    words[0]
}

// Three sections as an element file, to a room, and an answer run of two words.
#[tactic(auto, unfolding(bits::specs::Runs::copied))]
pub fn kelubashi1_write(
    centres: &[u64],
    states: &[u64],
    requests: &[u64],
    room: &mut [u8],
    answer: &mut [u64],
) -> u64
    ensures number { result ≡ write_number answer.old centres.now states.now requests.now room.old }
    ensures answer { answer.new
        ≡ write_answer answer.old centres.now states.now requests.now room.old }
    ensures lent { room.new
        ≡ write_room answer.old centres.now states.now requests.now room.old }
{
    if answer.len() != 2 {
        return Refusal::AnswerLength.into();
    }
    let written = files::write_file(Edition::One, centres, states, requests, room);
    let words = sized_words(written);
    bits::copy_words(&words, answer);
    words[0]
}

// The interval of a request, its time less the epoch of its state, to an answer run of one word.
#[tactic(auto, using(crate::proofs::OneWord::one_word))]
pub fn kelubashi1_interval(time: u64, epoch: u64, answer: &mut [u64]) -> u64
    ensures number { result ≡ returned 1 answer.old 0 }
    ensures answer { answer.new ≡ answer_after 1 answer.old (tau_of time epoch ∷ []) }
{
    if answer.len() == 1 {
        answer[0] = files_results::tau_of(time, epoch);
        return 0;
    }
    Refusal::AnswerLength.into()
}

// The result file of an element file, to a room, and an answer run of two words.
#[tactic(auto, unfolding(bits::specs::Runs::copied))]
pub fn kelubashi1_results(file: &[u8], room: &mut [u8], answer: &mut [u64]) -> u64
    ensures number { result ≡ returned 2 answer.old (fault_number (outcome_of file.now room.old)) }
    ensures answer { answer.new ≡ answer_after 2 answer.old (results_words file.now room.old) }
    ensures lent { room.new
        ≡ lent_behind 2 answer.old room.old (put room.old 0 (result_file file.now)) }
{
    if answer.len() != 2 {
        return Refusal::AnswerLength.into();
    }
    let outcome = files_results::write_results(file, room);
    bits::copy_words(&sized_words(outcome), answer);
    fault_number(outcome)
}

// The summary of all states, an entry of four words for each centre, to a lent list, and an answer run of two words.
#[tactic(auto, unfolding(bits::specs::Runs::copied))]
pub fn kelubashi1_summary(
    states: &[u64],
    count: u64,
    centres: u64,
    list: &mut [u64],
    answer: &mut [u64],
) -> u64
    ensures number { result ≡ returned 2 answer.old (refusal_in (summary_refusal states.now (roster_of One count centres) list.old)) }
    ensures answer { answer.new
        ≡ answer_after 2 answer.old (refusal_in (summary_refusal states.now (roster_of One count centres) list.old) ∷ count ∷ []) }
    ensures list { list.new
        ≡ lent_behind 2 answer.old list.old (summary_list states.now (roster_of One count centres) list.old) }
{
    if answer.len() != 2 {
        return Refusal::AnswerLength.into();
    }
    let number = number_in(files_summary::words::summary(list, states, roster_of(count, centres)));
    bits::copy_words(&[number, count], answer);
    number
}

// A state appended to those in use, and its centre's entry brought up to date, with an answer run of two words.
#[tactic(auto, unfolding(bits::specs::Runs::copied))]
pub fn kelubashi1_append(
    state: &[u64],
    states: &mut [u64],
    count: u64,
    centres: u64,
    list: &mut [u64],
    answer: &mut [u64],
) -> u64
    ensures number { result ≡ returned 2 answer.old
        (refusal_in (change_made (append state.now) states.old count centres list.old)) }
    ensures answer { answer.new ≡ answer_after 2 answer.old
        (change_words count (change_made (append state.now) states.old count centres list.old)) }
    ensures states { states.new ≡ lent_behind 2 answer.old states.old
        (states_made (append state.now) states.old count centres list.old) }
    ensures list { list.new ≡ lent_behind 2 answer.old list.old
        (list_made (append state.now) states.old count centres list.old) }
{
    if answer.len() != 2 {
        return Refusal::AnswerLength.into();
    }
    let appended = files_summary::words::append(list, state, states, roster_of(count, centres));
    bits::copy_words(&change_words(appended, count), answer);
    number_in(appended)
}

// A state withdrawn from those in use, and its centre's entry brought up to date, with an answer run of two words.
#[tactic(auto, unfolding(bits::specs::Runs::copied))]
pub fn kelubashi1_withdraw(
    which: u64,
    states: &mut [u64],
    count: u64,
    centres: u64,
    list: &mut [u64],
    answer: &mut [u64],
) -> u64
    ensures number { result ≡ returned 2 answer.old
        (refusal_in (change_made (withdraw which) states.old count centres list.old)) }
    ensures answer { answer.new ≡ answer_after 2 answer.old
        (change_words count (change_made (withdraw which) states.old count centres list.old)) }
    ensures states { states.new ≡ lent_behind 2 answer.old states.old
        (states_made (withdraw which) states.old count centres list.old) }
    ensures list { list.new ≡ lent_behind 2 answer.old list.old
        (list_made (withdraw which) states.old count centres list.old) }
{
    if answer.len() != 2 {
        return Refusal::AnswerLength.into();
    }
    let withdrawn = files_summary::words::withdraw(list, which, states, roster_of(count, centres));
    bits::copy_words(&change_words(withdrawn, count), answer);
    number_in(withdrawn)
}

// A verdict for each row of another station's file, to a lent run, and an answer run of two words.
#[tactic(auto, unfolding(bits::specs::Runs::copied))]
pub fn kelubashi1_check(file: &[u8], verdicts: &mut [u64], answer: &mut [u64]) -> u64
    ensures number { result ≡ returned 2 answer.old (number_in (judged_words (judged_of file.now (length verdicts.old)))) }
    ensures answer { answer.new
        ≡ answer_after 2 answer.old (judged_words (judged_of file.now (length verdicts.old))) }
    ensures lent { verdicts.new
        ≡ lent_behind 2 answer.old verdicts.old (verdicts_after file.now verdicts.old) }
{
    if answer.len() != 2 {
        return Refusal::AnswerLength.into();
    }
    let words = sized_words(files_check::judge(file, verdicts));
    bits::copy_words(&words, answer);
    words[0]
}

// Two result files compared, row by row to a lent run, and an answer run of seven words.
#[tactic(auto, unfolding(bits::specs::Runs::copied))]
pub fn kelubashi1_compare(left: &[u8], right: &[u8], rows: &mut [u64], answer: &mut [u64]) -> u64
    ensures number { result ≡ returned 7 answer.old (number_in (compare_words left.now right.now rows.old)) }
    ensures answer { answer.new
        ≡ answer_after 7 answer.old (compare_words left.now right.now rows.old) }
    ensures lent { rows.new
        ≡ lent_behind 7 answer.old rows.old (run_after left.now right.now rows.old) }
{
    if answer.len() != 7 {
        return Refusal::AnswerLength.into();
    }
    let words = files_differences::words_of(files_compare::compare(left, right, rows));
    bits::copy_words(&words, answer);
    words[0]
}
