// Runs of one number in a list of prefixes (document 02, CR 8: "all addresses of a subtree have one number, the given one between prefixes"), from
// the highest address down. The list is read as pieces, each a prefix or the gap between two; a piece is found from where it ends, and a run is
// joined of pieces, the last first.
#![tactic(auto)]

ghost use Rattle.std.specs.Prelude.{◌≡◌, ◌^◌, ◌≤◌, ◌<◌};
ghost use Rattle.prefix_records.specs.models.Cursor.{value_of};
ghost use Rattle.prefix_lists.specs.models.Listed.{Rising};
ghost use Rattle.prefix_runs.specs.models.Runs.{Cut, RunAt, numbers, RunBelow};
ghost use Rattle.prefix_runs.specs.models.Pieces.{top, Joined};

use prefix_records::Address;

// A list of prefixes: records that rise and do not overlap, and the number of all other addresses.
#[derive(Clone, Copy)]
pub struct Prefixes<'a> {
    pub records: &'a [u8],
    pub given: u32,
    pub ghost rising: { Rising 128 records.now },
}

// A run of addresses with one number: where it starts, its number, and how many of the list's prefixes lie below it.
#[derive(Clone, Copy, Debug, PartialEq, Eq)]
pub struct Run {
    pub first: Address,
    pub number: u32,
    pub under: usize,
}

impl<'a> Prefixes<'a> {
    // The piece that ends at an address, 0 standing for the one behind all addresses. It is the last of the prefixes below, or the gap behind it.
    fn piece_below(self, end: Address, under: usize) -> Run
        requires { Cut self.records.now (top (value_of end)) under }
        ensures { Joined self.entry.records.now self.entry.given (top (value_of end)) result }
    {
        let Prefixes { records, given } = self;
        if under == 0 {
            return Run {
                first: Address::ZERO,
                number: given,
                under: 0,
            };
        }
        let last = under - 1;
        let record = prefix_lists::record_at(records, last);
        let past = prefix_records::behind(record.address, record.length);
        if past == end {
            return Run {
                first: record.address,
                number: record.number,
                under: last,
            };
        }
        Run {
            first: past,
            number: given,
            under,
        }
    }

    // The run that ends at an address, 0 standing for the one behind all addresses: pieces are joined while they have one number.
    fn run_below(self, end: Address, under: usize) -> Run
        requires { Cut self.records.now (top (value_of end)) under }
        ensures { RunBelow self.entry.records.now self.entry.given (top (value_of end)) result }
    {
        let mut run = self.piece_below(end, under);
        while run.first != Address::ZERO {
            let next = self.piece_below(run.first, run.under);
            if next.number != run.number {
                return run;
            }
            run = next;
        }
        run
    }

    // The run at the end of all addresses.
    pub fn last_run(self) -> Run
        ensures { RunBelow self.entry.records.now self.entry.given (2 ^ 128) result }
    {
        self.run_below(Address::ZERO, self.records.len() / 24)
    }

    // The run that ends below an address, where the one before it starts there; else that one still.
    pub fn run_before(self, first: Address, run: Run) -> Run
        requires { (0 < value_of first) × (value_of run.first ≤ value_of first)
            × RunAt (numbers self.records.now self.given) (Cut self.records.now) (value_of first) run }
        ensures { RunBelow self.entry.records.now self.entry.given (value_of first) result }
    {
        if run.first == first {
            return self.run_below(first, run.under);
        }
        run
    }
}
