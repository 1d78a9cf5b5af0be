// An answer as words.
ghost use Rattle.std.specs.Prelude.{◌≡◌};
ghost use Rattle.states.specs.Call.{answer_words};

use super::figures::Answer;
use search::Refused;

// The fifteen words of an answer: refusal, points, position, velocity, end acceleration, start acceleration, psi; of a refusal, its number and its points, and
// +0 for every figure. The first eleven are a result row. Written into its callers: as a call of its own it costs 1 in 100 of a propagation.
#[inline(always)]
#[tactic(auto, unfolding(crate::specs::Call::answer_words))]
pub fn words_of(answer: Result<Answer, Refused>) -> [u64; 15]
    ensures { result ≡ answer_words answer }
{
    let mut words = [0; 15];
    match answer {
        Ok(answer) => {
            words[1] = answer.points;
            words[2..].copy_from_slice(&states_arcs::figures_of(answer.results));
        }
        Err(refused) => {
            words[0] = refused.refusal.into();
            words[1] = refused.points;
        }
    }
    words
}
