// The lines of a page (document 02, CR 4): a group, how many candidates it has, and their per cent, in 25 bytes.
#![tactic(auto)]

ghost use Rattle.std.specs.Prelude.{◌≡◌, ◌+◌, ◌*◌, ◌≤◌, ◌<◌, length};
ghost use Rattle.std.proofs.lemmas.List.Edits.{sets};
ghost use Rattle.group_shares.specs.Spread.{share};
ghost use Rattle.group_shares.specs.models.Runs.{runs};
ghost use Rattle.page_lines.specs.PerCent as percent;
ghost use Rattle.page_lines.specs.Line.{per_cent, line, lines};

use decimal_columns::{last_digit, put_columns};

// The bytes of a line.
pub const LINE_BYTES: usize = 25;

// The per cent of a part in tenths, halves up.
fn tenths(part: u64, all: u64) -> u64
    requires { (part ≤ all) × (0 < all) × (all ≤ 4096) }
    ensures { result ≡ percent.tenths part all }
{
    let quotient = 1000 * part / all;
    let rest = 1000 * part % all;
    if 2 * rest < all {
        return quotient;
    }
    quotient + 1
}

// A per cent that is given in tenths, in 6 columns.
fn put_per_cent(columns: &mut [u8], n: u64)
    requires { length columns.old ≡ 6 }
    ensures { columns.new ≡ per_cent n }
{
    put_columns(&mut columns[..4], n / 10);
    columns[4] = b'.';
    columns[5] = last_digit(n);
}

// A line, in 25 columns: a group with so many of all candidates.
fn put_line(columns: &mut [u8], group: u64, count: usize, all: usize)
    requires { (length columns.old ≡ 25) × (count ≤ all) × (0 < all) × (all ≤ 4096) }
    ensures { columns.new ≡ line all (share group count) }
{
    put_columns(&mut columns[..10], group);
    columns[10] = b' ';
    put_columns(&mut columns[11..17], count as u64);
    columns[17] = b' ';
    put_per_cent(&mut columns[18..24], tenths(count as u64, all as u64));
    columns[24] = b'\n';
}

// The lines of groups that are sorted, at an output's front: equal groups stand side by side, and each run of them has a line.
pub fn put_lines(groups: &[u64], out: &mut [u8])
    requires { (length groups.now ≤ 4096) × (25 * length (runs groups.now) ≤ length out.old) }
    ensures { out.new ≡ sets out.old 0 (lines (length groups.now) (runs groups.now)) }
{
    let mut i: usize = 0;
    let mut at: usize = 0;
    while i < groups.len() {
        let end = group_shares::run_end(groups, i);
        put_line(
            &mut out[at..at + LINE_BYTES],
            groups[i],
            end - i,
            groups.len(),
        );
        i = end;
        at += LINE_BYTES;
    }
}
