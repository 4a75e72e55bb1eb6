// The records of a file as rows of numbers.
ghost use Rattle.std.specs.Prelude.{◌≡◌, ◌+◌, ◌*◌, ◌≤◌, length, take};
ghost use Rattle.std.proofs.Math.Seq.{paste};
ghost use Rattle.policy.specs.steps.Boxes.{same_box};
ghost use Rattle.policy.specs.Header.{arity, everything};
ghost use Rattle.policy.specs.Entry.{selector};
ghost use Rattle.policy.specs.steps.Rows.{row_size, rows_in, numbers_of};
ghost use Rattle.wire.specs.Format.{place_in, entries_from};
ghost use Rattle.wire.specs.steps.Numbered.{entry_in};

use crate::put::paste;
use crate::record::entry_in;
use policy::entry::{Entry, row_of, sides_of};
use policy::header::whole;
use policy::sides::{ROW, is_same};

// Puts an entry's row at a place.
pub fn put_row(rows: &mut [u32], at: usize, e: Entry)
    requires { at + row_size ≤ length rows.old }
    ensures { rows.new ≡ paste rows.old at (numbers_of e) row_size }
{
    paste(rows, at, &row_of(e));
}

// Decodes n entries of a file, from a number on, into the first rows.
pub fn decode_entries(file: &[u8], from: usize, n: usize, rows: &mut [u32])
    requires { (place_in file.now (from + n) ≤ length file.now) × (row_size * n ≤ length rows.old) }
    ensures { rows_in (take (row_size * n) rows.new) ≡ entries_from file.now from n }
{
    for i in 0..n {
        put_row(rows, ROW * i, entry_in(file, from + i));
    }
}

// Whether entry number i of a file is 01's ALL: a list that ends with it has no gap.
pub fn entry_is_all(file: &[u8], i: usize) -> bool
    requires { place_in file.now (i + 1) ≤ length file.now }
    ensures { result ≡ same_box arity (selector (entry_in file.now i)) everything }
{
    is_same(&sides_of(entry_in(file, i)), &whole())
}
