// What check and walk came to (document 01, Check, Walk), as numbers. The exported calls hand it out by these functions.
#![tactic(auto)]

ghost use Rattle.std.specs.Prelude.{◌≡◌, ◌∷◌, []};
ghost use Rattle.answer_outcome.specs.Outcome.{handed};
ghost use Rattle.answer_maps.specs.Maps.{map_checked, wrong_number, check_stopped, kind_number, walk_made};

use asmap_check::Stop;
use asmap_program::{Accepted, Kind};
use asmap_walk_bits::Ending;
use refusals::{Fault, Refusal};

// What the check came to, as an answer and lent numbers.
#[tactic(auto, unfolding(answer_outcome::specs::Outcome::handed, crate::specs::Maps::map_checked))]
pub fn hand_verdict(got: Result<Accepted, Refusal>, count: &mut u32, depth: &mut u8) -> u8
    ensures { result ∷ count.new ∷ depth.new ∷ [] ≡ handed (map_checked got) (count.old ∷ depth.old ∷ []) }
{
    match got {
        Ok(accepted) => {
            *count = accepted.count;
            *depth = accepted.depth;
            0
        }
        Err(refusal) => refusal.number(),
    }
}

// The number of what a check found wrong: 0 where that is nothing.
fn wrong_number(wrong: Option<Fault>) -> u8
    ensures { result ≡ wrong_number wrong }
{
    match wrong {
        None => 0,
        Some(fault) => fault.number(),
    }
}

// Where the check stopped.
#[tactic(auto, unfolding(answer_outcome::specs::Outcome::handed, crate::specs::Maps::check_stopped))]
pub fn hand_stop(got: Result<Stop, Refusal>, reason: &mut u8, place: &mut usize) -> u8
    ensures { result ∷ reason.new ∷ place.new ∷ [] ≡ handed (check_stopped got) (reason.old ∷ place.old ∷ []) }
{
    match got {
        Ok(stop) => {
            *reason = wrong_number(stop.wrong);
            *place = stop.place;
            0
        }
        Err(refusal) => refusal.number(),
    }
}

// The number of a kind of end: a cut code's is that of its refusal.
#[tactic(auto, unfolding(crate::specs::Maps::kind_number))]
fn kind_number(kind: Kind) -> u8
    ensures { result ≡ kind_number kind }
{
    match kind {
        Kind::Returned => 1,
        Kind::Differed => 2,
        Kind::TooFewBits => 3,
        Kind::OpcodeCut => Fault::CutOpcode.number(),
        Kind::OperandCut => Fault::CutOperand.number(),
    }
}

// What a walk came to.
#[tactic(auto, unfolding(answer_outcome::specs::Outcome::handed, crate::specs::Maps::walk_made))]
pub fn hand_walk(
    got: Result<Ending, Refusal>,
    kind: &mut u8,
    number: &mut u32,
    count: &mut u32,
    bits: &mut u8,
) -> u8
    ensures { result ∷ kind.new ∷ number.new ∷ count.new ∷ bits.new ∷ [] ≡ handed (walk_made got) (kind.old ∷ number.old ∷ count.old ∷ bits.old ∷ []) }
{
    match got {
        Ok(ending) => {
            *kind = kind_number(ending.kind);
            *number = ending.number;
            *count = ending.count;
            *bits = ending.bits;
            0
        }
        Err(refusal) => refusal.number(),
    }
}
