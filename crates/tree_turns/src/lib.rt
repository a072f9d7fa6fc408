// The turns of a pass over the tree of all addresses, from its end to its start (document 02, CR 8): where a subtree's halves start, and what is
// done at a subtree.
#![tactic(auto)]

ghost use Rattle.std.specs.Prelude.{◌≡◌, ◌+◌, ◌-◌, ◌/◌, ◌%◌, ◌^◌, ◌≤◌, ◌<◌};
ghost use Rattle.prefix_records.specs.models.Cursor.{value_of};
ghost use Rattle.tree_turns.specs.models.Turns.{TurnOf};

use prefix_records::Address;

// What is done at a subtree. One still to do that has one number returns, any other is descended into, to its half with bit 1. One that is done is
// closed by its JUMP where it is a half with bit 0; from a half with bit 1 the pass crosses to the half beside it.
#[derive(Clone, Copy, Debug, PartialEq, Eq)]
pub enum Turn {
    Returns,
    Descends,
    Closes,
    Crosses,
}

// Where the half with bit 1 of a subtree of `depth` bits starts.
pub fn one_half(first: Address, depth: usize) -> Address
    requires { (depth < 128) × (value_of first % 2 ^ (128 - depth) ≡ 0) }
    ensures { value_of result ≡ value_of first + 2 ^ (127 - depth) }
{
    let Address { high, low } = first;
    if depth < 64 {
        let high = high + (1 << (63 - depth));
        return Address { high, low };
    }
    let low = low + (1 << (127 - depth));
    Address { high, low }
}

// Where the half with bit 0 starts that lies beside a subtree of `depth` bits, the last of which is 1.
pub fn zero_half(first: Address, depth: usize) -> Address
    requires { (1 ≤ depth) × (depth ≤ 128) × (value_of first / 2 ^ (128 - depth) % 2 ≡ 1) }
    ensures { value_of result ≡ value_of first - 2 ^ (128 - depth) }
{
    let Address { high, low } = first;
    if depth < 65 {
        let high = high - (1 << (64 - depth));
        return Address { high, low };
    }
    let low = low - (1 << (128 - depth));
    Address { high, low }
}

// The last bit of a subtree of `depth` bits.
fn last_bit(first: Address, depth: usize) -> u64
    requires { (1 ≤ depth) × (depth ≤ 128) }
    ensures { result ≡ value_of first / 2 ^ (128 - depth) % 2 }
{
    if depth < 65 {
        return (first.high >> (64 - depth)) % 2;
    }
    (first.low >> (128 - depth)) % 2
}

// Which turn comes at a subtree of `depth` bits: with it to do, by where the run starts that holds its last address; else by its last bit.
pub fn turn_of(todo: usize, first: Address, depth: usize, from: Address) -> Turn
    requires { (todo ≤ 1) × (depth ≤ 128) × (1 ≤ depth + todo) }
    ensures { TurnOf todo (value_of first) depth (value_of from) result }
{
    if todo == 1 {
        if from <= first {
            return Turn::Returns;
        }
        return Turn::Descends;
    }
    if last_bit(first, depth) == 0 {
        return Turn::Closes;
    }
    Turn::Crosses
}
