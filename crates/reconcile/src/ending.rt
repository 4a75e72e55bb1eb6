// The end of a merging or an installing: the file.
ghost use Rattle.std.specs.Prelude.{◌≡◌, ◌≤◌, length};
ghost use Rattle.policy.specs.Header.{headers};
ghost use Rattle.wire.specs.Format.{list_limit};
ghost use Rattle.reconcile.specs.Rules.{merged};
ghost use Rattle.reconcile.specs.Installing.{installed};
ghost use Rattle.reconcile.specs.Ending.{ending_of};
ghost use Rattle.reconcile.specs.steps.Stage.{stage_in, ended};
ghost use Rattle.reconcile.specs.steps.Ending.{ending};

use crate::install::install_best;
use crate::stage::{ROWS, Stage};
use crate::strike::strike_entries;
use crate::verdict::judge_stage;
use policy::entry::Entry;
use policy::ranking::Ranking;
use policy::refusal::Refusal;
use wire::format::{MERGED_VERSION, file_size};
use wire::write::put_entries;

// The entry count and the length of the file that was written.
#[derive(Clone, Copy)]
pub struct Merged {
    pub count: usize,
    pub length: usize,
}

// Writes entries as a file.
fn write_merged(entries: &[Entry], buffer: &mut [u8]) -> Result<Merged, Refusal>
    requires { length entries.now ≤ list_limit }
    ensures { ending result buffer.new ≡ ending_of (merged entries.now) buffer.old }
{
    let count = entries.len();
    let size = file_size(MERGED_VERSION, count);
    if buffer.len() < size {
        return Err(Refusal::Narrow(size));
    }
    put_entries(entries, MERGED_VERSION, buffer);
    Ok(Merged {
        count,
        length: size,
    })
}

// Ends a merging: writes the merged list as a file to the start of a buffer, or says why not. The rows that are lent may hold anything.
pub fn end_merging(
    s: Option<Stage>,
    rows: &mut [u32; ROWS],
    buffer: &mut [u8],
) -> Result<Merged, Refusal>
    ensures { ending result buffer.new ≡ ending_of (ended headers (stage_in s)) buffer.old }
{
    let Some(stage) = s else {
        return Err(Refusal::Bare);
    };
    judge_stage(&stage, rows)?;
    let mut entries = stage.entries;
    let list = &mut entries[..stage.count];
    let first = strike_entries(list, rows);
    write_merged(&list[first..], buffer)
}

// The same for the installed list.
pub fn end_installing(
    s: Option<Stage>,
    rows: &mut [u32; ROWS],
    ranking: Ranking<'_>,
    buffer: &mut [u8],
) -> Result<Merged, Refusal>
    ensures { ending result buffer.new ≡ ending_of (installed headers ranking.entry.numbers.now (ended headers (stage_in s))) buffer.old }
{
    let Some(stage) = s else {
        return Err(Refusal::Bare);
    };
    judge_stage(&stage, rows)?;
    let mut entries = stage.entries;
    let list = &mut entries[..stage.count];
    let first = strike_entries(list, rows);
    let left = &mut list[first..];
    let again = install_best(left, ranking, rows);
    write_merged(&left[again..], buffer)
}
