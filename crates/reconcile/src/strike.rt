// Rules 3 and 4 on the working list and its rows.
ghost use Rattle.std.specs.Prelude.{◌≡◌, ◌-◌, ◌*◌, ◌≤◌, ◌<◌, length, drop};
ghost use Rattle.policy.specs.Header.{headers};
ghost use Rattle.policy.specs.Least.{least};
ghost use Rattle.policy.specs.Policy.{allowed};
ghost use Rattle.policy.specs.steps.Rows.{row_size, row_at, rows_from, rows_in};
ghost use Rattle.reconcile.specs.Rules.{is_empty, needless, struck};

use policy::entry::Entry;
use policy::header::{Header, whole};
use policy::sides::{ROW, actions_at, row_sides};
use region::treated::{Sets, least_treated};
use wire::rows::put_row;

// Rule 3: the least header that the list allows no action.
pub(crate) fn least_conflict(rows: &[u32]) -> Option<Header>
    ensures { result ≡ least headers (λ h. is_empty (allowed (rows_in rows.now) h)) }
{
    let all = whole();
    least_treated(&rows[..0], rows, &all, Sets::Same(0), false, None).found
}

// Whether row k is needless before those from place top on, of n.
fn is_needless(rows: &[u32], k: usize, top: usize, n: usize) -> bool
    requires { (k < top) × ((top ≤ n) × (row_size * n ≤ length rows.now)) }
    ensures { result ≡ needless headers (rows_from rows.now 0 k) (row_at rows.now (row_size * k)) (rows_from rows.now (row_size * top) (n - top)) }
{
    let sides = row_sides(rows, ROW * k);
    let search = least_treated(
        &rows[..ROW * k],
        &rows[ROW * top..ROW * n],
        &sides,
        Sets::Other(actions_at(rows, ROW * k)),
        true,
        None,
    );
    search.found.is_none()
}

// Rule 4: examines the entries, which have these rows, from last to first. What is left is moved to the end, and stands there from the place that is answered on.
pub(crate) fn strike_entries(entries: &mut [Entry], rows: &mut [u32]) -> usize
    requires { (row_size * length entries.old ≤ length rows.old) × (rows_from rows.old 0 (length entries.old) ≡ entries.old) }
    ensures { (result ≤ length entries.new) × (drop result entries.new ≡ struck headers entries.old) }
{
    let n = entries.len();
    let mut top = n;
    for k in (0..n).rev() {
        if !is_needless(rows, k, top, n) {
            top -= 1;
            let e = entries[k];
            entries[top] = e;
            put_row(rows, ROW * top, e);
        }
    }
    top
}
