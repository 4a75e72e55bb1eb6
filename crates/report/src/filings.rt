// The filings of the input, each on the bench that the last one returned, and their lines.
ghost use Rattle.std.specs.Prelude.{◌≡◌};
ghost use Rattle.bench.specs.Calls.{bench_after};
ghost use Rattle.report.specs.steps.Printed.{Printed};
ghost use Rattle.report.specs.steps.Puts.{Puts};
ghost use Rattle.report.specs.Report.{filings_of, filing_lines};

use crate::frame::file_run;
use crate::page::Page;
use bench::calls::Bench;

#[derive(Clone, Copy)]
pub struct Filings {
    pub bench: Bench,
    // The place behind the lines.
    pub at: usize,
}

impl Page<'_> {
    // Files the lists of the input on an empty bench, and puts the line of each.
    pub(crate) fn put_filings(&mut self, input: &[u8]) -> Bench
        ensures bench { result ≡ bench_after (filings_of input.now) }
        ensures lines { Puts self.old self.new (filing_lines (filings_of input.now)) }
    {
        let mut bench = Bench::open();
        let mut left = input;
        while let [party, rest @ ..] = left {
            let (file, behind) = rest.split_at(file_run(rest));
            let f = bench.file(*party, file);
            self.put_filing(*party, f.answer);
            bench = f.bench;
            left = behind;
        }
        bench
    }
}

// The same at the start of a buffer. The loop is in the method: behind a loop over a page that the same function made, the check no longer knows that the page is of `out`.
pub fn put_filings(out: &mut [u8], input: &[u8]) -> Filings
    ensures { (result.bench ≡ bench_after (filings_of input.now)) × Printed out.old 0 (filing_lines (filings_of input.now)) out.new result.at }
{
    let mut page = Page { out, at: 0 };
    let bench = page.put_filings(input);
    Filings { bench, at: page.at }
}
