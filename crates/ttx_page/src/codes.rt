//! Tests of character codes.

ghost use Rattle.std.specs.Prelude.{◌≡◌, ℕ, ◌<◌, ◌↔◌, IsTrue, length, slice_index, slice_index_or, []};
ghost use Rattle.ttx_page.specs.Pages.{IsRow};

/// Whether each character is below 128, that is, bit 7 is not set in their union.
fn are_codes(row: &[u8]) -> bool
    ensures { IsTrue result ↔ ((c : ℕ) → slice_index row.now c < 128) }
{
    let mut union = 0;
    for i in 0..row.len() {
        union |= row[i];
    }
    union < 128
}

/// Whether all 24 characters of row 0 are below 128.
pub(crate) fn is_head(head: &[u8; 24]) -> bool
    ensures codes { IsTrue result ↔ ((c : ℕ) → slice_index head.now c < 128) }
    ensures length { length head.now ≡ 24 }
{
    are_codes(head)
}

// The length of a row, which its type says.
fn length_of(row: &[u8; 40]) -> usize
    ensures value { result ≡ 40 }
    ensures length { length row.now ≡ 40 }
{
    row.len()
}

// Each row has 40 characters. The loop has no effect, so no code is left of it.
fn know_lengths<const N: usize>(rows: &[[u8; 40]; N])
    ensures { (r : ℕ) → r < N → length (slice_index_or rows.now r []) ≡ 40 }
{
    for row in rows {
        let _length = length_of(row);
    }
}

/// Whether all characters of all rows are below 128.
pub(crate) fn are_rows<const N: usize>(rows: &[[u8; 40]; N]) -> bool
    ensures rows { IsTrue result ↔ ((r : ℕ) → r < N → IsRow (slice_index_or rows.now r [])) }
    ensures count { length rows.now ≡ N }
{
    know_lengths(rows);
    are_codes(rows.as_flattened())
}
