// Why a call is refused: what can be wrong with a map, and with the rest of what a caller hands in. Each reason has a number, which callers in C are
// handed; a refused call has written nothing.
#![tactic(auto)]

ghost use Rattle.std.specs.Prelude.{◌≡◌};
ghost use Rattle.refusals.specs.Numbers.{fault_number, refusal_number};

// What can be wrong with a map.
#[derive(Clone, Copy, Debug, PartialEq, Eq)]
pub enum Fault {
    // It has more than 16,777,216 bytes.
    MapTooLong,
    // It ends where an instruction must start.
    MapEnds,
    // An instruction starts at or past the innermost open jump's target.
    PastTarget,
    // An opcode is cut by its end.
    CutOpcode,
    // A RETURN or a DEFAULT comes straight after a DEFAULT.
    AfterDefault,
    // More than 7 bits, or a bit that is 1, follow the last RETURN.
    Padding,
    // A RETURN does not end at the innermost open jump's target.
    NotAtTarget,
    // An instruction uses more address bits than are left.
    NoBits,
    // A jump's target lies at or past the innermost open jump's.
    TargetsCross,
    // A MATCH shorter than 8 comes straight after a MATCH shorter than 8.
    ShortMatches,
    // An operand is cut by its end.
    CutOperand,
}

// Why a call is refused.
#[derive(Clone, Copy, Debug, PartialEq, Eq)]
pub enum Refusal {
    // What is wrong with the map; of two maps, with the old one.
    Map(Fault),
    // What is wrong with the new one of two maps.
    NewMap(Fault),
    // The address does not have 16 bytes, or 4 at width 32.
    AddressLength,
    // More than 4,096 candidates or occupied groups.
    TooMany,
    // A candidate is not 20 bytes of a known form.
    Candidate,
    // A lent output is too short.
    OutputTooShort,
    // The opcode or operand is out of its range.
    OutOfRange,
    // A record's length, zeros, place or size is wrong.
    Record,
    // An address has a length that its network does not have.
    RelayLength,
    // The width is neither 32 nor 128.
    Width,
    // The seed is 0, or there are more than 128 pairs.
    Load,
    // Record bytes no multiple of 24, or a prefix out of order, overlapping, longer than the width, with ones past it or wrong zeros.
    Prefix,
    // A number that is not within 1 to 33,521,664.
    Number,
}

impl Fault {
    // The number that callers in C are handed.
    pub fn number(self) -> u8
        ensures { result ≡ fault_number self }
    {
        match self {
            Fault::MapTooLong => 1,
            Fault::MapEnds => 2,
            Fault::PastTarget => 3,
            Fault::CutOpcode => 4,
            Fault::AfterDefault => 5,
            Fault::Padding => 6,
            Fault::NotAtTarget => 7,
            Fault::NoBits => 8,
            Fault::TargetsCross => 9,
            Fault::ShortMatches => 10,
            Fault::CutOperand => 19,
        }
    }
}

impl Refusal {
    // The number that callers in C are handed. That of the new map's fault has 100 more.
    pub fn number(self) -> u8
        ensures { result ≡ refusal_number self }
    {
        match self {
            Refusal::Map(fault) => fault.number(),
            Refusal::NewMap(fault) => 100 + fault.number(),
            Refusal::AddressLength => 11,
            Refusal::TooMany => 12,
            Refusal::Candidate => 13,
            Refusal::OutputTooShort => 14,
            Refusal::OutOfRange => 15,
            Refusal::Record => 16,
            Refusal::RelayLength => 17,
            Refusal::Width => 18,
            Refusal::Load => 20,
            Refusal::Prefix => 21,
            Refusal::Number => 22,
        }
    }
}

impl From<Fault> for Refusal {
    ghost use Rattle.refusals.specs.declared.Refusal.{Refusal};

    ghost from_gives = { λ fault refusal. refusal ≡ Refusal.Map fault };

    fn from(of_map: Fault) -> Refusal {
        Refusal::Map(of_map)
    }
}
