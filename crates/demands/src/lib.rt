// What a caller can conclude: document 01's three demands, and document 02's requests, each said in plain numbers of functions that make the
// exported calls (`corbastrigo_…`) as a user would. This is the page to read first for whoever doubts the rest.
//
// A contract here uses no definition of the project but the check (`check_of`), with the number of what it finds wrong (`fault_number`), the place where it
// stops (`stop_of`, `StopsAt`), the walk (`walk_of`), the unpacked list (`unpacked`), the first pass (`first_pass`), the draws (`next`, `draw`) with the
// load made of them (`load_of`), the map built from prefixes (`build_at`), and Core's functions (`core_check`, `core_interpret`, its four decoders), with
// how these take bytes (`map_of`, `file_of`, `address_bit`) and when rows of bytes are equal (`same`). All else is numbers, bytes and equations, in
// `demand_statements/specs`. Each is proved from the contracts of the exported calls and from laws about those definitions
// (`demand_statements/proofs`); no code below them is looked at. So what a contract there no longer says is refused here. All 42 exported
// calls have a caller.
//
// Demand 1, any input: `any_input`, and `refused` in `picks` and `pages`. Maps, addresses, lists and lengths of every kind get an answer, 0, or one
// of document 01's numbers for that call, said with when. Where the answer is not 0, every lent number and byte is what it was.
//
// Demand 2, as Core has it, and both ways without loss: `same`, and `core` in `walks` and of the codes read in `any_input`. A code that is
// read is Core's; the check answers 0 exactly where Core's says true; the walk of an accepted map has Core's number; a map unpacked and
// packed is that map, records packed and unpacked are those.
//
// Demand 3, what an accepted map can never do: `walks` and `picks`. No walk aborts; each ends as the defined walk does, at a RETURN or at
// a difference, within 2 × bits + 1 instructions, so within 257, each of them in the unpacked list and among the bytes that unpack
// writes. A number 0 is that of a difference before any DEFAULT was read. A pick's first pass is the defined one by the numbering of the call, with as many
// candidates examined, and as many instructions as the defined walks of those candidates read.
//
// Request 1, every prefix that a map tells apart: `lists`. The records written tile all addresses, and the one in which an address lies has the
// number of its walk. The listing itself is not named: what is said is read off the bytes.
//
// Request 2, the occupied scan: `scanned` in `any_input`. Where it says found, the group stands at its place and at no place in front of it, and
// that place plus one groups were read; where it does not, the group stands nowhere, and all were read.
//
// Request 3, maps for four-byte addresses: `widths`. All of the above on maps, at a width of 32 or 128 bits, said once for both; 18 for any other.
//
// Request 4, the spread on a printed page: `pages`. Each byte of a line is read off the output: its group, rising from line to line, how many
// candidates have it, their per cent, spaces and line feed. Every candidate's group has a line, and with a map no walk of a candidate aborts.
//
// Request 5, cut opcode or cut operand: `cuts`. An instruction is refused 4 where no opcode can be read at its bit, and 19 where one can; and where the
// check refuses a map with the one or the other, so does reading the instruction at the place where it stops.
//
// Request 6, a load everyone can make again: `loads`. The bytes are those of the defined load from its seed; the check accepts them over every number of
// address bits from the pairs on, and every address that begins with the MATCH bits walks each instruction. No draw is 0, so none is refused but
// the seed.
//
// Request 7, IPv4 prefixes with a number range to themselves: `numberings`. Without a map no IPv4 address, mapped or not, shares a group with any other IPv6
// address, and two share one exactly where they share their first two bytes; what becomes of a group of the old numbering. The calls that keep it are in
// `picks` (`group_by_prefix`, `pick_by_old_prefixes`) and `pages` (`page_by_old_prefixes`).
//
// Request 8, a map built from prefixes: `builds`. Which lists are built from, said of their bytes; the map written is accepted, and every address of the
// width walks to a RETURN with the number of the record in which it lies, or with the given one.
//
// Two maps compared: `comparisons`. Where a comparison needs no byte, the two walks by any address end with the same number.
#![tactic(auto)]

pub mod any_input;
pub mod builds;
pub mod comparisons;
pub mod cuts;
pub mod lists;
pub mod loads;
pub mod numberings;
pub mod pages;
pub mod picks;
pub mod same;
pub mod walks;
pub mod widths;
