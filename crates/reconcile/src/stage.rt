// The working list after the parties so far.
ghost use Rattle.std.specs.Prelude.{◌≡◌, ◌*◌, ◌≤◌, IfSome, Some, length};
ghost use Rattle.policy.specs.Header.{headers};
ghost use Rattle.policy.specs.steps.Rows.{row_size};
ghost use Rattle.wire.specs.Format.{head_size, list_limit};
ghost use Rattle.reconcile.specs.Rules.{trimmed, limited};
ghost use Rattle.reconcile.specs.steps.Stage.{working_held, stage_in, filed_in, added};

use crate::cross::{cross_list, filed_count, is_left};
use policy::entry::{Entry, sides_of};
use policy::sides::ROW;
use wire::format::LIST_LIMIT;
use wire::list::EMPTY;
use wire::record::entry_in;
use wire::rows::put_row;

// As many numbers as the rows of the longest list have.
pub const ROWS: usize = ROW * LIST_LIMIT;

// The working list after the parties so far. The library has no heap, so that it stands in the first places of an array.
#[derive(Clone, Copy)]
pub struct Stage {
    pub entries: [Entry; LIST_LIMIT],
    // How many entries it has; more than 256 say that it is crowded, which is plainer than a case of its own: the 257th is the first that is not kept.
    pub count: usize,
}

// Rule 2 for the first list. Its entries are fewer than the places.
fn first_list(rows: &mut [u32], file: &[u8]) -> Stage
    requires { length rows.old ≡ row_size * list_limit }
    ensures { working_held result ≡ limited (trimmed headers (filed_in file.now)) }
{
    let mut entries = [EMPTY; LIST_LIMIT];
    let mut n: usize = 0;
    for j in 0..filed_count(file) {
        let e = entry_in(file, j);
        let sides = sides_of(e);
        if !is_left(&rows[..ROW * n], &sides) {
            continue;
        }
        entries[n] = e;
        put_row(rows, ROW * n, e);
        n += 1;
    }
    Stage { entries, count: n }
}

// Rules 1 and 2 for one party's list more, in a file, where the working list, if there is one yet, is not crowded. The rows that are lent may hold anything.
pub fn add_list(s: &Option<Stage>, rows: &mut [u32; ROWS], file: &[u8]) -> Stage
    requires { IfSome s.now (λ t. t.count ≤ list_limit) × (head_size ≤ length file.now) }
    ensures { Some (working_held result) ≡ added headers (stage_in s.now) (filed_in file.now) }
{
    match s {
        None => first_list(rows, file),
        Some(stage) => cross_list(&stage.entries[..stage.count], rows, file),
    }
}
