// Layer 4: the call with partials, from eight words to an answer and 36 words in a lent run (document 01, "Refusals in order of checking").
ghost use Rattle.std.specs.Prelude.{◌≡◌};
ghost use Rattle.states.specs.WithPartials.{partials_of, lent_of};

use super::call::{answered_with, reach, refused_with};
use super::figures::{Answer, Reached, Seeking};
use bits::Refusal;
use search::Refused;

// The same as `propagate` for eight words, with the 36 partials to the lent run: refusal 1, then as without them, and 8 by the partials too.
#[tactic(auto, unfolding(crate::specs::WithPartials::partials_by, crate::specs::WithPartials::lent_by, crate::specs::WithPartials::with_partials))]
pub fn propagate_with_partials(words: [u64; 8], run: &mut [u64]) -> Result<Answer, Refused>
    ensures answer { result ≡ partials_of words run.old }
    ensures lent { run.new ≡ lent_of words run.old }
{
    if run.len() != 36 {
        return Err(refused_with(Refusal::PartialsLength, 0));
    }
    // No `?`, as in `propagate`.
    match reach(words, Seeking::Search) {
        Ok(Reached { arc, points }) => {
            let results = states_arcs::ended(arc).map_err(|refusal| refused_with(refusal, points))?;
            let written = states_partials::write_partials(arc, run);
            written.map_err(|refusal| refused_with(refusal, points))?;
            Ok(answered_with(points, results))
        }
        Err(refused) => Err(refused),
    }
}
