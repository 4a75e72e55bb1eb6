// The entries that a refusal for conflict names.
ghost use Rattle.bench.specs.Answers.{entry_of, named_from};
ghost use Rattle.report.specs.steps.Puts.{Puts};
ghost use Rattle.report.specs.Report.{entries_text};

use crate::page::Page;

impl Page<'_> {
    // A party's number and that of its entry, if it has one.
    fn put_entry_of(&mut self, party: usize, entry: Option<usize>)
        ensures { Puts self.old self.new (entries_text (entry_of party entry)) }
    {
        match entry {
            Some(i) => {
                self.put(b" ");
                self.put_decimal(party);
                self.put(b":");
                self.put_decimal(i);
            }
            None => {}
        }
    }

    // The same for each party.
    pub(crate) fn put_named(&mut self, named: [Option<usize>; 8])
        ensures { Puts self.old self.new (entries_text (named_from 1 named)) }
    {
        for (i, entry) in named.iter().enumerate() {
            self.put_entry_of(i + 1, *entry);
        }
    }
}
