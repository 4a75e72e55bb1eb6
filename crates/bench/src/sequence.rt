// A caller of the bench, as a user's program would be: it goes by the contracts of the calls alone.
ghost use Rattle.std.specs.Prelude.{◌≡◌, [], ◌∷◌};
ghost use Rattle.bench.specs.Answers.{merged_as};
ghost use Rattle.bench.specs.Calls.{filing, withdrawal, merging, CallResult, result_of, bench_after, book_after};
ghost use Rattle.bench.specs.Demand3.{Demand3};

use crate::calls::{Bench, MergeResult};

// Two filings, a withdrawal and a merging on one bench.
pub fn file_twice_and_merge(first: &[u8], second: &[u8], out: &mut [u8]) -> MergeResult
    ensures answers { ◌≡◌ {A = CallResult} (merged_as result.answer result.named, result.bench, out.new)
        (result_of (bench_after (filing 1 first.now ∷ filing 2 second.now ∷ withdrawal 1 ∷ [])) (merging out.old)) }
    ensures demand { Demand3 (book_after (filing 1 first.now ∷ filing 2 second.now ∷ withdrawal 1 ∷ [])) out.old (merged_as result.answer result.named) out.new }
{
    let b0 = Bench::open();
    let f = b0.file(1, first);
    let b1 = f.bench;
    let g = b1.file(2, second);
    let b2 = g.bench;
    let w = b2.withdraw(1);
    let b3 = w.bench;
    b3.merge(out)
}
