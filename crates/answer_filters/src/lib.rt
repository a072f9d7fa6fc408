// What the filters came to (document 01, Filters), as a number: 1 for yes, 0 for no. The exported calls hand it out by this function.
#![tactic(auto)]

ghost use Rattle.std.specs.Prelude.{◌≡◌, ◌∷◌, []};
ghost use Rattle.answer_outcome.specs.Outcome.{handed};
ghost use Rattle.answer_filters.specs.Filters.{said};

use refusals::Refusal;

// What a filter says, as an answer and a lent number.
#[tactic(auto, unfolding(answer_outcome::specs::Outcome::handed, crate::specs::Filters::said))]
pub fn hand_said(got: Result<bool, Refusal>, answer: &mut u8) -> u8
    ensures { result ∷ answer.new ∷ [] ≡ handed (said got) (answer.old ∷ []) }
{
    match got {
        Ok(is_so) => {
            *answer = u8::from(is_so);
            0
        }
        Err(refusal) => refusal.number(),
    }
}
