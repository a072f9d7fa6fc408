// Numbers in decimal, set flush right in columns (document 02, CR 4).
#![tactic(auto)]

ghost use Rattle.std.specs.Prelude.{◌≡◌, ◌+◌, ◌≤◌, ◌<◌, length};
ghost use Rattle.std.proofs.lemmas.List.Edits.{sets};
ghost use Rattle.decimal_columns.specs.Columns.{digit_byte, flush_right};
ghost use Rattle.decimal_columns.specs.models.Rest.{rest_byte};

// The byte of a number's last digit.
pub fn last_digit(n: u64) -> u8
    ensures { result ≡ digit_byte n 0 }
{
    b'0' + (n % 10) as u8
}

// The byte of a column, by what is left of the number there: a space where nothing is.
fn rest_byte(rest: u64) -> u8
    ensures { result ≡ rest_byte rest }
{
    if rest == 0 {
        return b' ';
    }
    last_digit(rest)
}

// A number put into columns, as many as are lent, from the last to the first. The last has a digit always.
pub fn put_columns(columns: &mut [u8], n: u64)
    ensures { columns.new ≡ flush_right (length columns.old) n }
{
    let mut byte = last_digit(n);
    let mut rest = n / 10;
    for column in (0..columns.len()).rev() {
        columns[column] = byte;
        byte = rest_byte(rest);
        rest /= 10;
    }
}
