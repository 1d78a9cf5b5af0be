// The archive that control programs link: each export is kelubashi's function of that name, with its parameters and its clauses.
#![tactic(auto)]

ghost use Rattle.std.specs.Prelude.{◌≡◌, [], ◌∷◌, length};
ghost use Rattle.bits.specs.Refusal.{number_in as refusal_in};
ghost use Rattle.bits.specs.Root.{root_refusal_of, root_word_of};
ghost use Rattle.states.specs.Call.{orbit_words, answer_words, refusal_of, propagate_of};
ghost use Rattle.states.specs.WithPartials.{partials_of, lent_of};
ghost use Rattle.files_words.specs.Bytes.{put};
ghost use Rattle.files_results.specs.Requests.{tau_of};
ghost use Rattle.files_results.specs.Results.{outcome_of, result_file};
ghost use Rattle.files_formats.specs.declared.elements.Edition.TheVariants.{One};
ghost use Rattle.files_summary.specs.Entries.{roster_of};
ghost use Rattle.files_summary.specs.Changes.{append, withdraw, summary_refusal, summary_list};
ghost use Rattle.files_check.specs.RowsFile.{judged_of, verdicts_after};
ghost use Rattle.files_compare.specs.Compare.{compare_words, run_after};
ghost use Rattle.kelubashi.specs.Face.{
  returned,
  answer_after,
  lent_behind,
  fault_number,
  read_words,
  results_words,
  number_in,
  write_number,
  write_answer,
  write_room,
  change_made,
  states_made,
  list_made,
  change_words,
  judged_words,
};

// The square root of the double of a word, to an answer run of one word.
#[unsafe(no_mangle)]
pub extern "C" fn kelubashi1_root(word: u64, answer: &mut [u64]) -> u64
    ensures number { result ≡ returned 1 answer.old (root_refusal_of word) }
    ensures answer { answer.new ≡ answer_after 1 answer.old (root_word_of word ∷ []) }
{
    kelubashi::kelubashi1_root(word, answer)
}

// Position, velocity and accelerations of eight words, to an answer run of fifteen words.
#[unsafe(no_mangle)]
pub extern "C" fn kelubashi1_propagate(
    mu: u64,
    x: u64,
    y: u64,
    z: u64,
    vx: u64,
    vy: u64,
    vz: u64,
    tau: u64,
    answer: &mut [u64],
) -> u64
    ensures number { result ≡ returned 15 answer.old (refusal_of (propagate_of (orbit_words mu x y z vx vy vz tau))) }
    ensures answer { answer.new ≡ answer_after 15 answer.old (answer_words (propagate_of (orbit_words mu x y z vx vy vz tau))) }
{
    kelubashi::kelubashi1_propagate(mu, x, y, z, vx, vy, vz, tau, answer)
}

// The same, with the 36 partials to a lent run.
#[unsafe(no_mangle)]
pub extern "C" fn kelubashi1_partials(
    mu: u64,
    x: u64,
    y: u64,
    z: u64,
    vx: u64,
    vy: u64,
    vz: u64,
    tau: u64,
    answer: &mut [u64],
    run: &mut [u64],
) -> u64
    ensures number { result ≡ returned 15 answer.old (refusal_of (partials_of (orbit_words mu x y z vx vy vz tau) run.old)) }
    ensures answer { answer.new
        ≡ answer_after 15 answer.old (answer_words (partials_of (orbit_words mu x y z vx vy vz tau) run.old)) }
    ensures lent { run.new
        ≡ lent_behind 15 answer.old run.old (lent_of (orbit_words mu x y z vx vy vz tau) run.old) }
{
    kelubashi::kelubashi1_partials(mu, x, y, z, vx, vy, vz, tau, answer, run)
}

// Where the sections of an element file stand, to an answer run of eight words.
#[unsafe(no_mangle)]
pub extern "C" fn kelubashi1_read(file: &[u8], answer: &mut [u64]) -> u64
    ensures number { result ≡ returned 8 answer.old (number_in (read_words file.now)) }
    ensures answer { answer.new ≡ answer_after 8 answer.old (read_words file.now) }
{
    kelubashi::kelubashi1_read(file, answer)
}

// Three sections as an element file, to a room, and an answer run of two words.
#[unsafe(no_mangle)]
pub extern "C" fn kelubashi1_write(
    centres: &[u64],
    states: &[u64],
    requests: &[u64],
    room: &mut [u8],
    answer: &mut [u64],
) -> u64
    ensures number { result ≡ write_number answer.old centres.now states.now requests.now room.old }
    ensures answer { answer.new
        ≡ write_answer answer.old centres.now states.now requests.now room.old }
    ensures lent { room.new
        ≡ write_room answer.old centres.now states.now requests.now room.old }
{
    kelubashi::kelubashi1_write(centres, states, requests, room, answer)
}

// The interval of a request, its time less the epoch of its state, to an answer run of one word.
#[unsafe(no_mangle)]
pub extern "C" fn kelubashi1_interval(time: u64, epoch: u64, answer: &mut [u64]) -> u64
    ensures number { result ≡ returned 1 answer.old 0 }
    ensures answer { answer.new ≡ answer_after 1 answer.old (tau_of time epoch ∷ []) }
{
    kelubashi::kelubashi1_interval(time, epoch, answer)
}

// The result file of an element file, to a room, and an answer run of two words.
#[unsafe(no_mangle)]
pub extern "C" fn kelubashi1_results(file: &[u8], room: &mut [u8], answer: &mut [u64]) -> u64
    ensures number { result ≡ returned 2 answer.old (fault_number (outcome_of file.now room.old)) }
    ensures answer { answer.new ≡ answer_after 2 answer.old (results_words file.now room.old) }
    ensures lent { room.new
        ≡ lent_behind 2 answer.old room.old (put room.old 0 (result_file file.now)) }
{
    kelubashi::kelubashi1_results(file, room, answer)
}

// The summary of all states, an entry of four words for each centre, to a lent list, and an answer run of two words.
#[unsafe(no_mangle)]
pub extern "C" fn kelubashi1_summary(
    states: &[u64],
    count: u64,
    centres: u64,
    list: &mut [u64],
    answer: &mut [u64],
) -> u64
    ensures number { result ≡ returned 2 answer.old (refusal_in (summary_refusal states.now (roster_of One count centres) list.old)) }
    ensures answer { answer.new
        ≡ answer_after 2 answer.old (refusal_in (summary_refusal states.now (roster_of One count centres) list.old) ∷ count ∷ []) }
    ensures list { list.new
        ≡ lent_behind 2 answer.old list.old (summary_list states.now (roster_of One count centres) list.old) }
{
    kelubashi::kelubashi1_summary(states, count, centres, list, answer)
}

// A state appended to those in use, and its centre's entry brought up to date, with an answer run of two words.
#[unsafe(no_mangle)]
pub extern "C" fn kelubashi1_append(
    state: &[u64],
    states: &mut [u64],
    count: u64,
    centres: u64,
    list: &mut [u64],
    answer: &mut [u64],
) -> u64
    ensures number { result ≡ returned 2 answer.old
        (refusal_in (change_made (append state.now) states.old count centres list.old)) }
    ensures answer { answer.new ≡ answer_after 2 answer.old
        (change_words count (change_made (append state.now) states.old count centres list.old)) }
    ensures states { states.new ≡ lent_behind 2 answer.old states.old
        (states_made (append state.now) states.old count centres list.old) }
    ensures list { list.new ≡ lent_behind 2 answer.old list.old
        (list_made (append state.now) states.old count centres list.old) }
{
    kelubashi::kelubashi1_append(state, states, count, centres, list, answer)
}

// A state withdrawn from those in use, and its centre's entry brought up to date, with an answer run of two words.
#[unsafe(no_mangle)]
pub extern "C" fn kelubashi1_withdraw(
    which: u64,
    states: &mut [u64],
    count: u64,
    centres: u64,
    list: &mut [u64],
    answer: &mut [u64],
) -> u64
    ensures number { result ≡ returned 2 answer.old
        (refusal_in (change_made (withdraw which) states.old count centres list.old)) }
    ensures answer { answer.new ≡ answer_after 2 answer.old
        (change_words count (change_made (withdraw which) states.old count centres list.old)) }
    ensures states { states.new ≡ lent_behind 2 answer.old states.old
        (states_made (withdraw which) states.old count centres list.old) }
    ensures list { list.new ≡ lent_behind 2 answer.old list.old
        (list_made (withdraw which) states.old count centres list.old) }
{
    kelubashi::kelubashi1_withdraw(which, states, count, centres, list, answer)
}

// A verdict for each row of another station's file, to a lent run, and an answer run of two words.
#[unsafe(no_mangle)]
pub extern "C" fn kelubashi1_check(file: &[u8], verdicts: &mut [u64], answer: &mut [u64]) -> u64
    ensures number { result ≡ returned 2 answer.old (number_in (judged_words (judged_of file.now (length verdicts.old)))) }
    ensures answer { answer.new
        ≡ answer_after 2 answer.old (judged_words (judged_of file.now (length verdicts.old))) }
    ensures lent { verdicts.new
        ≡ lent_behind 2 answer.old verdicts.old (verdicts_after file.now verdicts.old) }
{
    kelubashi::kelubashi1_check(file, verdicts, answer)
}

// Two result files compared, row by row to a lent run, and an answer run of seven words.
#[unsafe(no_mangle)]
pub extern "C" fn kelubashi1_compare(
    left: &[u8],
    right: &[u8],
    rows: &mut [u64],
    answer: &mut [u64],
) -> u64
    ensures number { result ≡ returned 7 answer.old (number_in (compare_words left.now right.now rows.old)) }
    ensures answer { answer.new
        ≡ answer_after 7 answer.old (compare_words left.now right.now rows.old) }
    ensures lent { rows.new
        ≡ lent_behind 7 answer.old rows.old (run_after left.now right.now rows.old) }
{
    kelubashi::kelubashi1_compare(left, right, rows, answer)
}
