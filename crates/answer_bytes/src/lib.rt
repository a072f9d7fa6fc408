// What a call that writes bytes came to, or one that tells how many it would write, as numbers: unpack and pack (document 01, Unpack and
// pack), the listing (document 02, CR 1), the comparison and the page (CR 4). The exported calls hand it out by this function.
#![tactic(auto)]

ghost use Rattle.std.specs.Prelude.{◌≡◌, ◌∷◌, []};
ghost use Rattle.answer_outcome.specs.Outcome.{handed};
ghost use Rattle.answer_bytes.specs.Bytes.{byte_count};

use refusals::Refusal;

// How many bytes unpack, pack, a listing, a comparison or a page wrote, or a listing or a comparison would write.
#[tactic(auto, unfolding(answer_outcome::specs::Outcome::handed, crate::specs::Bytes::byte_count))]
pub fn hand_bytes(got: Result<usize, Refusal>, bytes: &mut usize) -> u8
    ensures { result ∷ bytes.new ∷ [] ≡ handed (byte_count got) (bytes.old ∷ []) }
{
    match got {
        Ok(count) => {
            *bytes = count;
            0
        }
        Err(refusal) => refusal.number(),
    }
}
