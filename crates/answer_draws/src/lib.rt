// What a draw came to (document 02, CR 6), as numbers. The exported call hands it out by this function; what a load came to is handed out as other
// written bytes are (`answer_bytes`).
#![tactic(auto)]

ghost use Rattle.std.specs.Prelude.{◌≡◌, ◌∷◌, []};
ghost use Rattle.answer_outcome.specs.Outcome.{handed};
ghost use Rattle.answer_draws.specs.Draws.{number_drawn};

use refusals::Refusal;

// The number drawn, as an answer and a lent number.
#[tactic(auto, unfolding(answer_outcome::specs::Outcome::handed, crate::specs::Draws::number_drawn))]
pub fn hand_draw(got: Result<u64, Refusal>, draw: &mut u64) -> u8
    ensures { result ∷ draw.new ∷ [] ≡ handed (number_drawn got) (draw.old ∷ []) }
{
    match got {
        Ok(number) => {
            *draw = number;
            0
        }
        Err(refusal) => refusal.number(),
    }
}
