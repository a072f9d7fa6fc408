// A candidate's bytes: whether bytes are a candidate, and whether two rows of bytes are equal (document 01, Groups and pick). What lists
// of candidates, the group calls and the pick share.
#![tactic(auto)]

ghost use Rattle.std.specs.Prelude.{◌≡◌, ◌≤◌, length, take};
ghost use Rattle.candidate_bytes.specs.Candidate.{same, mapped, valid};

// Six zero bytes and ff ff as one number, the first lowest: the last eight of the twelve bytes in front of an IPv4 address in its
// mapped form.
const MAPPED_WORD: u64 = 18446462598732840960;

// Whether the first n bytes of two rows are equal, byte by byte.
fn same_front(a: &[u8], b: &[u8], n: usize) -> bool
    requires { (n ≤ length a.now) × (n ≤ length b.now) }
    ensures { result ≡ same (take n a.now) (take n b.now) }
{
    for i in (0..n).rev() {
        if a[i] != b[i] {
            return false;
        }
    }
    true
}

// Whether two rows of bytes are equal. It compares eight bytes at a time, then four, from the last down: candidates of one
// family share their first bytes.
pub fn same_bytes(a: &[u8], b: &[u8]) -> bool
    ensures { result ≡ same a.now b.now }
{
    if a.len() != b.len() {
        return false;
    }
    let mut i = a.len();
    while 8 <= i {
        i -= 8;
        if byte_numbers::word_at(a, i) != byte_numbers::word_at(b, i) {
            return false;
        }
    }
    if 4 <= i {
        if byte_numbers::half_at(a, i - 4) != byte_numbers::half_at(b, i - 4) {
            return false;
        }
        return same_front(a, b, i - 4);
    }
    same_front(a, b, i)
}

// Whether the address of 20 bytes has the mapped form: four zero bytes, then the word above.
pub fn is_mapped(candidate: &[u8]) -> bool
    requires { length candidate.now ≡ 20 }
    ensures { result ≡ mapped candidate.now }
{
    // The four bytes come first: other addresses hardly ever begin with zeros, and a group by its prefix reads the same bytes.
    byte_numbers::half_at(candidate, 2) == 0 && byte_numbers::word_at(candidate, 6) == MAPPED_WORD
}

// Whether bytes are a candidate: 20 of them, family 6, or 4 with the mapped form, and a zero. Of family 4 two words hold the
// first 14 bytes: 4 and zeros, then zeros and ff ff.
#[tactic(auto, unfolding(crate::specs::Candidate::valid))]
pub fn is_candidate(candidate: &[u8]) -> bool
    ensures { result ≡ valid candidate.now }
{
    if candidate.len() != 20 {
        return false;
    }
    if byte_numbers::word_at(candidate, 0) == 4 {
        return byte_numbers::word_at(candidate, 6) == MAPPED_WORD;
    }
    candidate[1] == 0 && candidate[0] == 6
}
