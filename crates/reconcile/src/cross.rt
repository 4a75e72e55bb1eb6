// Rules 1 and 2: the working list is crossed with a party's list, pair by pair in lexicographic order.
ghost use Rattle.std.specs.Prelude.{◌≡◌, not, ◌&&◌, ◌*◌, ◌≤◌, min, length};
ghost use Rattle.policy.specs.Header.{lies, headers};
ghost use Rattle.policy.specs.Policy.{missed};
ghost use Rattle.policy.specs.Sides.{box_of};
ghost use Rattle.policy.specs.steps.Rows.{row_size, rows_in};
ghost use Rattle.wire.specs.Format.{head_size, filed_limit, list_limit, records_in};
ghost use Rattle.reconcile.specs.Rules.{no_header, list, next};
ghost use Rattle.reconcile.specs.steps.Pass.{RowsOf};
ghost use Rattle.reconcile.specs.steps.Stage.{working_held, filed_in};

use crate::stage::Stage;
use policy::entry::{Entry, sides_of};
use policy::pair::both_entries;
use policy::sides::{ROW, SIDES, meets_row, part_in_row};
use region::least::least_missed;
use wire::format::{FILED_LIMIT, LIST_LIMIT};
use wire::list::EMPTY;
use wire::record::{entry_in, records_in};
use wire::rows::{decode_entries, put_row};

// Whether b has a header that the rows leave uncaught.
pub(crate) fn is_left(rows: &[u32], b: &[u32; SIDES]) -> bool
    ensures { result ≡ not (no_header headers λ h. missed (rows_in rows.now) h && lies (box_of b.now 0) h) }
{
    least_missed(rows, b, None).is_some()
}

// The entries of the working list crossed with the list of a file, whose rows are theirs. Most pairs have nothing in common, and are passed; of the others the
// entry is made if it is kept.
fn cross_rows(kept: &[Entry], rows: &mut [u32], file: &[u8], theirs: &[u32]) -> Stage
    requires { (length rows.old ≡ row_size * list_limit) × RowsOf file.now theirs.now }
    ensures { working_held result ≡ next headers (list kept.now) (rows_in theirs.now) }
{
    let mut entries = [EMPTY; LIST_LIMIT];
    let mut n: usize = 0;
    for i in 0..kept.len() {
        let d = kept[i];
        let sides = sides_of(d);
        for j in 0..theirs.len() / ROW {
            if !meets_row(theirs, ROW * j, &sides) {
                continue;
            }
            let part = part_in_row(theirs, ROW * j, &sides);
            if !is_left(&rows[..ROW * n], &part) {
                continue;
            }
            if LIST_LIMIT <= n {
                return Stage {
                    entries,
                    count: LIST_LIMIT + 1,
                };
            }
            let e = both_entries(d, entry_in(file, j));
            entries[n] = e;
            put_row(rows, ROW * n, e);
            n += 1;
        }
    }
    Stage { entries, count: n }
}

// How many entries are read of a file: no more than a filed list has.
pub fn filed_count(file: &[u8]) -> usize
    ensures { result ≡ min (records_in file.now) filed_limit }
{
    records_in(file).min(FILED_LIMIT)
}

// The same for the list of a file, which is decoded once.
pub(crate) fn cross_list(kept: &[Entry], rows: &mut [u32], file: &[u8]) -> Stage
    requires { (length rows.old ≡ row_size * list_limit) × (head_size ≤ length file.now) }
    ensures { working_held result ≡ next headers (list kept.now) (filed_in file.now) }
{
    let total = filed_count(file);
    let mut theirs = [0u32; ROW * FILED_LIMIT];
    decode_entries(file, 0, total, &mut theirs);
    cross_rows(kept, rows, file, &theirs[..ROW * total])
}
