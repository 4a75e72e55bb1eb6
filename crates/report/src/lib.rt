// The program's report: its whole output, from its input.
#![tactic(auto)]

pub mod filings;
mod frame;
mod line;
mod merged;
mod merging;
mod named;
mod page;

ghost use Rattle.std.specs.Prelude.{◌≡◌, List, ℕ, ◌≤◌, min, length, take};
ghost use Rattle.report.specs.Text.{with_text};
ghost use Rattle.report.specs.Report.{report_of, report_size};

use crate::page::Page;

// The most bytes of input.
pub const INPUT_LIMIT: usize = 65536;

// No report is longer.
pub const REPORT_SIZE: usize = 998711;

// Puts as much of the report at the start of the lent buffer as there is room for, and answers how much that is.
pub fn report(input: &[u8], out: &mut [u8]) -> usize
    ensures printed { ◌≡◌ {A = ℕ × List ℕ} (result, out.new)
        (min (length (report_of input.now)) (length out.old), with_text out.old 0 (report_of input.now)) }
    ensures whole { report_size ≤ length out.old → take result out.new ≡ report_of input.now }
{
    // Two returns: where branches join, the check no longer knows that the page is of `out`.
    let mut page = Page { out, at: 0 };
    if INPUT_LIMIT < input.len() {
        page.put(b"input too long\n");
        return page.at;
    }
    let bench = page.put_filings(input);
    page.put_merging(bench);
    page.at
}
