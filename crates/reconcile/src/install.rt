// Installing: each entry of the merged list keeps its best-ranked action, and rule 4 strikes again.
ghost use Rattle.std.specs.Prelude.{◌≡◌, map, ◌≤◌, length, drop};
ghost use Rattle.policy.specs.Header.{headers};
ghost use Rattle.wire.specs.Format.{list_limit};
ghost use Rattle.reconcile.specs.Rules.{struck};
ghost use Rattle.reconcile.specs.Installing.{with_best};

use crate::stage::ROWS;
use crate::strike::strike_entries;
use crate::verdict::put_rows;
use policy::entry::Entry;
use policy::ranking::Ranking;

// e with the best-ranked action of its set alone.
fn with_best(ranking: Ranking<'_>, e: Entry) -> Entry
    ensures { result ≡ with_best ranking.entry.numbers.now e }
{
    Entry {
        actions: ranking.best_of(e.actions),
        ..e
    }
}

// Leaves each entry its best-ranked action alone.
fn choose_best(entries: &mut [Entry], ranking: Ranking<'_>)
    ensures { entries.new ≡ map (with_best ranking.entry.numbers.now) entries.old }
{
    for e in entries.iter_mut() {
        *e = with_best(ranking, *e);
    }
}

// What installing makes of the entries: as many, each with its best-ranked action alone, from which rule 4 strikes again. What is left stands at their end, from the
// place that is answered on. The rows that are lent may hold anything.
pub(crate) fn install_best(
    entries: &mut [Entry],
    ranking: Ranking<'_>,
    rows: &mut [u32; ROWS],
) -> usize
    requires { length entries.old ≤ list_limit }
    ensures { (result ≤ length entries.new) × (drop result entries.new ≡ struck headers (map (with_best ranking.entry.numbers.now) entries.old)) }
{
    choose_best(entries, ranking);
    put_rows(entries, rows);
    strike_entries(entries, rows)
}
