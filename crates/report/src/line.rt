// The lines of the report.
ghost use Rattle.std.specs.Prelude.{◌++◌};
ghost use Rattle.policy.specs.Refusals.{numbers, refusal};
ghost use Rattle.bench.specs.Answers.{also, named_from, filed};
ghost use Rattle.report.specs.Text.{ascii, decimal};
ghost use Rattle.report.specs.steps.Puts.{Puts};
ghost use Rattle.report.specs.Report.{header_text, detail, refused_line, filing_line};

use crate::page::Page;
use bench::named::none_named;
use policy::header::Header;
use policy::refusal::Refusal;
use wire::header::header_bytes;

impl Page<'_> {
    // A space and a header.
    fn put_header(&mut self, h: Header)
        ensures { Puts self.old self.new (header_text (numbers h)) }
    {
        self.put(b" ");
        self.put_hex(&header_bytes(h));
    }

    // A space and an entry number.
    fn put_entry(&mut self, i: usize)
        ensures { Puts self.old self.new (ascii " " ++ decimal i) }
    {
        self.put(b" ");
        self.put_decimal(i);
    }

    // What follows the number of a refusal, and the entries that it names.
    fn put_detail(&mut self, r: Refusal, named: [Option<usize>; 8])
        ensures { Puts self.old self.new (detail (also (refusal r) (named_from 1 named))) }
    {
        match r {
            Refusal::Crossed(i) => self.put_entry(i),
            Refusal::Gap(h) => self.put_header(h),
            Refusal::Conflict(h) => {
                self.put_header(h);
                self.put_named(named);
            }
            _ => {}
        }
    }

    pub(crate) fn put_refused(&mut self, party: u8, r: Refusal, named: [Option<usize>; 8])
        ensures { Puts self.old self.new (refused_line party (also (refusal r) (named_from 1 named))) }
    {
        self.put(b"refused ");
        self.put_decimal(party as usize);
        self.put(b" ");
        self.put_decimal(r.number() as usize);
        self.put_detail(r, named);
        self.put(b"\n");
    }

    fn put_filed(&mut self, party: u8, n: usize)
        ensures { Puts self.old self.new (ascii "filed " ++ decimal party ++ ascii " " ++ decimal n ++ ascii "\n") }
    {
        self.put(b"filed ");
        self.put_decimal(party as usize);
        self.put(b" ");
        self.put_decimal(n);
        self.put(b"\n");
    }

    // The line of a filing.
    pub(crate) fn put_filing(&mut self, party: u8, answer: Result<usize, Refusal>)
        ensures { Puts self.old self.new (filing_line party (filed answer)) }
    {
        match answer {
            Ok(n) => self.put_filed(party, n),
            Err(r) => self.put_refused(party, r, none_named()),
        }
    }
}
