// Rule 3: whether the working list of all parties merges.
ghost use Rattle.std.specs.Prelude.{◌≡◌, ◌*◌, ◌≤◌, Some, length};
ghost use Rattle.policy.specs.Header.{headers};
ghost use Rattle.policy.specs.steps.Rows.{row_size, rows_from};
ghost use Rattle.reconcile.specs.Rules.{list, struck};
ghost use Rattle.reconcile.specs.steps.Stage.{ended};
ghost use Rattle.reconcile.specs.steps.Verdicts.{judged_as, Judged};

use crate::stage::{ROWS, Stage};
use crate::strike::least_conflict;
use policy::entry::Entry;
use policy::refusal::Refusal;
use policy::sides::ROW;
use wire::format::LIST_LIMIT;
use wire::rows::put_row;

// Puts the rows of the entries.
pub(crate) fn put_rows(entries: &[Entry], rows: &mut [u32])
    requires { row_size * length entries.now ≤ length rows.old }
    ensures { rows_from rows.new 0 (length entries.now) ≡ entries.now }
{
    for (i, e) in entries.iter().enumerate() {
        put_row(rows, ROW * i, *e);
    }
}

// Rule 3 for a working list, whose rows it puts.
fn judge_list(entries: &[Entry], rows: &mut [u32]) -> Result<(), Refusal>
    requires { row_size * length entries.now ≤ length rows.old }
    ensures { (judged_as result (struck headers entries.now) ≡ ended headers (Some (list entries.now))) × (rows_from rows.new 0 (length entries.now) ≡ entries.now) }
{
    put_rows(entries, rows);
    match least_conflict(&rows[..ROW * entries.len()]) {
        Some(h) => Err(Refusal::Conflict(h)),
        None => Ok(()),
    }
}

// Refusals 9 and 10, or that the working list merges; then its rows are put. The rows that are lent may hold anything.
pub(crate) fn judge_stage(s: &Stage, rows: &mut [u32; ROWS]) -> Result<(), Refusal>
    ensures { Judged s.now result rows.new }
{
    if LIST_LIMIT < s.count {
        return Err(Refusal::Crowded);
    }
    judge_list(&s.entries[..s.count], rows)
}
