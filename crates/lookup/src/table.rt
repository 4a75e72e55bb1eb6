// First match in a lent table of unpacked entries.
ghost use Rattle.std.specs.Prelude.{◌≡◌};
ghost use Rattle.lookup.specs.Lookup.{caught_answer, table_lookup_of};

use policy::entry::{Entry, catches_header};
use policy::header::Header;

// The first entry of the table that matches h (Definition 3 of 004), if h is a header.
pub fn lookup_table(table: &[Entry], h: Header) -> Option<usize>
    ensures { caught_answer result ≡ table_lookup_of table.now h }
{
    for (i, e) in table.iter().enumerate() {
        if catches_header(*e, h) {
            return Some(i);
        }
    }
    None
}
