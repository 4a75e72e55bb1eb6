// The lines of a merged list.
ghost use Rattle.std.specs.Prelude.{◌++◌, ◌≤◌, length, drop};
ghost use Rattle.wire.specs.Format.{merged_version, head_size, file_size};
ghost use Rattle.report.specs.Text.{ascii, decimal, hex};
ghost use Rattle.report.specs.steps.Puts.{Puts};
ghost use Rattle.report.specs.Report.{record_lines};

use crate::page::Page;
use wire::format::{HEAD_SIZE, MERGED_VERSION, record_size};

impl Page<'_> {
    // A record on its own line.
    fn put_record(&mut self, bytes: &[u8])
        ensures { Puts self.old self.new (hex bytes.now ++ ascii "\n") }
    {
        self.put_hex(bytes);
        self.put(b"\n");
    }

    // The n records of a merged file.
    fn put_records(&mut self, n: usize, file: &[u8])
        requires { file_size merged_version n ≤ length file.now }
        ensures { Puts self.old self.new (record_lines n (drop head_size file.now)) }
    {
        let records = file[HEAD_SIZE..].chunks_exact(record_size(MERGED_VERSION));
        for record in records.take(n) {
            self.put_record(record);
        }
    }

    // The number of entries and the records of the file.
    pub(crate) fn put_merged(&mut self, n: usize, file: &[u8])
        requires { file_size merged_version n ≤ length file.now }
        ensures { Puts self.old self.new (ascii "merged " ++ decimal n ++ ascii "\n" ++ record_lines n (drop head_size file.now)) }
    {
        self.put(b"merged ");
        self.put_decimal(n);
        self.put(b"\n");
        self.put_records(n, file);
    }
}
