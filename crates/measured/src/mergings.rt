// Whole mergings, installings and trials: filings on an empty bench, then the call.
ghost use Rattle.std.specs.Prelude.{Option, ◌≡◌, List, ℕ};
ghost use Rattle.bench.specs.Answers.{merged_as};
ghost use Rattle.bench.specs.Calls.{merging, installing, trying, answer_to, lent_after, bench_after};
ghost use Rattle.report.specs.Report.{filings_of};
ghost use Rattle.measured.specs.steps.Numbers.{merge_number};

use bench::calls::Bench;
use policy::refusal::Refusal;
use reconcile::ending::Merged;
use report::filings::put_filings;

// The bench with the filings of the program's input. Their lines go to a buffer without room for any.
fn filed_bench(input: &[u8]) -> Bench
    ensures { result ≡ bench_after (filings_of input.now) }
{
    let mut lines = [0u8; 1];
    let f = put_filings(&mut lines[0..0], input);
    let bench = f.bench;
    bench
}

// The number of entries, or 256 plus the number of the refusal.
fn merge_number(a: Result<Merged, Refusal>) -> usize
    ensures { (ns : List (Option ℕ)) → result ≡ merge_number (merged_as a ns) }
{
    match a {
        Ok(merged) => merged.count,
        Err(r) => 256 + usize::from(r.number()),
    }
}

// Merges the lists of the program's input into the buffer.
#[unsafe(no_mangle)]
pub extern "C" fn measured_merge(input: &[u8], buffer: &mut [u8]) -> usize
    ensures { ◌≡◌ {A = ℕ × List ℕ} (result, buffer.new)
        (merge_number (answer_to (bench_after (filings_of input.now)) (merging buffer.old)), lent_after (bench_after (filings_of input.now)) (merging buffer.old)) }
{
    let bench = filed_bench(input);
    let m = bench.merge(buffer);
    let answer = m.answer;
    merge_number(answer)
}

// Installs them by a ranking.
#[unsafe(no_mangle)]
pub extern "C" fn measured_install(input: &[u8], ranking: &[u8], buffer: &mut [u8]) -> usize
    ensures { ◌≡◌ {A = ℕ × List ℕ} (result, buffer.new)
        (merge_number (answer_to (bench_after (filings_of input.now)) (installing ranking.now buffer.old)), lent_after (bench_after (filings_of input.now)) (installing ranking.now buffer.old)) }
{
    let bench = filed_bench(input);
    let m = bench.install(ranking, buffer);
    let answer = m.answer;
    merge_number(answer)
}

// Files them, and tries a filing for a party.
#[unsafe(no_mangle)]
pub extern "C" fn measured_trial(input: &[u8], party: u8, tried: &[u8], buffer: &mut [u8]) -> usize
    ensures { ◌≡◌ {A = ℕ × List ℕ} (result, buffer.new)
        (merge_number (answer_to (bench_after (filings_of input.now)) (trying party tried.now buffer.old)), lent_after (bench_after (filings_of input.now)) (trying party tried.now buffer.old)) }
{
    let bench = filed_bench(input);
    let m = bench.trial(party, tried, buffer);
    let answer = m.answer;
    merge_number(answer)
}
