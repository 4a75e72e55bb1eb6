// The calls on a bench: it is handed to each and handed back.
ghost use Rattle.std.specs.Prelude.{◌≡◌, List, [], ◌∷◌, ◌++◌};
ghost use Rattle.policy.specs.Refusals.{refusal};
ghost use Rattle.bench.specs.Answers.{filed, withdrew, merged_as};
ghost use Rattle.bench.specs.Held.{open_bench};
ghost use Rattle.bench.specs.steps.Naming.{ResultOf};
ghost use Rattle.bench.specs.Calls.{Call, filing, withdrawal, merging, installing, trying, CallResult, result_of, bench_after, book_after};
ghost use Rattle.bench.specs.Demand3.{Demand3};
ghost use Rattle.bench.specs.Installing.{Installing};
ghost use Rattle.bench.specs.Trying.{Trying};

use crate::named::{conflict_in, name_catchers, none_named};
use crate::slots::{Slot, add_slots, slot_with, vacant_slot};
use policy::ranking::{Ranking, is_ranking};
use policy::refusal::Refusal;
use reconcile::ending::{Merged, end_installing, end_merging};
use reconcile::stage::ROWS;
use region::covering::check_list;

#[derive(Clone, Copy)]
pub struct Bench {
    pub slots: [Slot; 8],
}

#[derive(Clone, Copy)]
pub struct FileResult {
    pub bench: Bench,
    // The number of entries.
    pub answer: Result<usize, Refusal>,
}

#[derive(Clone, Copy)]
pub struct WithdrawResult {
    pub bench: Bench,
    pub answer: Result<(), Refusal>,
}

#[derive(Clone, Copy)]
pub struct MergeResult {
    pub bench: Bench,
    // The number of entries and the length of the file.
    pub answer: Result<Merged, Refusal>,
    // The entry of each party's list in force, parties 1 to 8 in their order, that catches the header of a conflict. Nothing where the party has no list in force, and
    // where there is no conflict.
    pub named: [Option<usize>; 8],
}

// The bench as it was, the answer, and what a conflict names.
fn result_of(bench: Bench, m: Result<Merged, Refusal>) -> MergeResult
    ensures { ResultOf bench m result }
{
    match conflict_in(m) {
        Some(h) => {
            let slots = bench.slots;
            MergeResult {
                bench,
                answer: m,
                named: name_catchers(slots, h),
            }
        }
        None => MergeResult {
            bench,
            answer: m,
            named: none_named(),
        },
    }
}

// The bench as it was, and a refusal beside which nothing is named.
fn refusal_of(bench: Bench, r: Refusal) -> MergeResult
    ensures { (result.bench ≡ bench) × (merged_as result.answer result.named ≡ refusal r) }
{
    MergeResult {
        bench,
        answer: Err(r),
        named: none_named(),
    }
}

impl Bench {
    // A bench with no filings.
    pub fn open() -> Bench
        ensures empty { result ≡ open_bench }
        ensures traced { bench_after [] ≡ result }
    {
        let vacant = vacant_slot();
        Bench { slots: [vacant; 8] }
    }

    // Files a list for a party, over the one that it has.
    pub fn file(mut self, party: u8, bytes: &[u8]) -> FileResult
        ensures answers { ◌≡◌ {A = CallResult} (filed result.answer, result.bench, []) (result_of self (filing party bytes.now)) }
        ensures traced { (cs : List Call) → bench_after cs ≡ self → bench_after (cs ++ (filing party bytes.now ∷ [])) ≡ result.bench }
    {
        if party < 1 {
            return FileResult {
                bench: self,
                answer: Err(Refusal::Party),
            };
        }
        if 8 < party {
            return FileResult {
                bench: self,
                answer: Err(Refusal::Party),
            };
        }
        match check_list(bytes) {
            Err(r) => FileResult {
                bench: self,
                answer: Err(r),
            },
            Ok(n) => {
                let at = (party - 1) as usize;
                let slot = slot_with(bytes);
                self.slots[at] = slot;
                FileResult {
                    bench: self,
                    answer: Ok(n),
                }
            }
        }
    }

    // Ends a party's list.
    pub fn withdraw(mut self, party: u8) -> WithdrawResult
        ensures answers { ◌≡◌ {A = CallResult} (withdrew result.answer, result.bench, []) (result_of self (withdrawal party)) }
        ensures traced { (cs : List Call) → bench_after cs ≡ self → bench_after (cs ++ (withdrawal party ∷ [])) ≡ result.bench }
    {
        if party < 1 {
            return WithdrawResult {
                bench: self,
                answer: Err(Refusal::Party),
            };
        }
        if 8 < party {
            return WithdrawResult {
                bench: self,
                answer: Err(Refusal::Party),
            };
        }
        let at = (party - 1) as usize;
        let old = self.slots[at];
        if old.length == 0 {
            return WithdrawResult {
                bench: self,
                answer: Err(Refusal::Vacant),
            };
        }
        let slot = vacant_slot();
        self.slots[at] = slot;
        WithdrawResult {
            bench: self,
            answer: Ok(()),
        }
    }

    // Merges the lists in force into a lent buffer.
    pub fn merge(self, out: &mut [u8]) -> MergeResult
        ensures answers { ◌≡◌ {A = CallResult} (merged_as result.answer result.named, result.bench, out.new) (result_of self (merging out.old)) }
        ensures traced { (cs : List Call) → bench_after cs ≡ self
            → (bench_after (cs ++ (merging out.old ∷ [])) ≡ result.bench)
            × Demand3 (book_after cs) out.old (merged_as result.answer result.named) out.new }
    {
        let mut rows = [0u32; ROWS];
        let slots = self.slots;
        let stage = add_slots(slots, &mut rows);
        let merged = end_merging(stage, &mut rows, out);
        result_of(self, merged)
    }

    // Installs the lists in force into a lent buffer: merges them, leaves each entry the action of its set that stands first in a ranking, and strikes again.
    pub fn install(self, ranking: &[u8], out: &mut [u8]) -> MergeResult
        ensures answers { ◌≡◌ {A = CallResult} (merged_as result.answer result.named, result.bench, out.new) (result_of self (installing ranking.now out.old)) }
        ensures traced { (cs : List Call) → bench_after cs ≡ self
            → (bench_after (cs ++ (installing ranking.now out.old ∷ [])) ≡ result.bench)
            × Installing ranking.now (book_after cs) out.old (merged_as result.answer result.named) out.new }
    {
        if !is_ranking(ranking) {
            return refusal_of(self, Refusal::Ranking);
        }
        let mut rows = [0u32; ROWS];
        let slots = self.slots;
        let stage = add_slots(slots, &mut rows);
        let ranking = Ranking { numbers: ranking };
        let installed = end_installing(stage, &mut rows, ranking, out);
        result_of(self, installed)
    }

    // Tries a filing: files on a copy of the bench and merges the copy. The bench itself stays as it is.
    pub fn trial(self, party: u8, bytes: &[u8], out: &mut [u8]) -> MergeResult
        ensures answers { ◌≡◌ {A = CallResult} (merged_as result.answer result.named, result.bench, out.new) (result_of self (trying party bytes.now out.old)) }
        ensures traced { (cs : List Call) → bench_after cs ≡ self
            → (bench_after (cs ++ (trying party bytes.now out.old ∷ [])) ≡ result.bench)
            × Trying party bytes.now (book_after cs) out.old (merged_as result.answer result.named) out.new }
    {
        let filed = self.file(party, bytes);
        let answer = filed.answer;
        match answer {
            Err(r) => refusal_of(self, r),
            Ok(_) => {
                let copy = filed.bench;
                let mut tried = copy.merge(out);
                tried.bench = self;
                tried
            }
        }
    }
}
