// The merging and its lines.
ghost use Rattle.bench.specs.Answers.{merging_of};
ghost use Rattle.bench.specs.Held.{book_of};
ghost use Rattle.report.specs.steps.Puts.{Puts};
ghost use Rattle.report.specs.Report.{merging_lines, merge_buffer};

use crate::page::Page;
use bench::calls::Bench;
use wire::format::FILE_SIZE;

impl Page<'_> {
    pub(crate) fn put_merging(&mut self, bench: Bench)
        ensures { Puts self.old self.new (merging_lines (merging_of (book_of bench) merge_buffer)) }
    {
        let mut file = [0u8; FILE_SIZE];
        let m = bench.merge(&mut file);
        let answer = m.answer;
        let named = m.named;
        match answer {
            Ok(merged) => self.put_merged(merged.count, &file),
            Err(r) => self.put_refused(0, r, named),
        }
    }
}
