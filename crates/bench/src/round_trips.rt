// Reading and writing, one after the other, as a user's program would: it goes by the contracts of the calls alone.
ghost use Rattle.std.specs.Prelude.{◌≡◌, List, ℕ};
ghost use Rattle.policy.specs.Refusals.{Answer};
ghost use Rattle.wire.specs.declared.list.Entries.{Entries};
ghost use Rattle.wire.specs.Lists.{reading};
ghost use Rattle.wire.specs.Writing.{writing};
ghost use Rattle.bench.specs.Demand2.{rewriting_of, rereading_of};

use policy::refusal::Refusal;
use wire::list::Entries;
use wire::read::read_list;
use wire::write::write_list;

// Reads a file as a list, and writes the list to the start of a buffer: the same file.
pub fn rewrite_file(file: &[u8], buffer: &mut [u8]) -> Result<usize, Refusal>
    ensures { writing result buffer.new ≡ rewriting_of file.now buffer.old }
{
    let list = read_list(file)?;
    write_list(list, buffer)
}

// Writes a list as a file to the start of a buffer, and reads the file: the same list.
pub fn reread_list(list: Entries, buffer: &mut [u8]) -> Result<Entries, Refusal>
    ensures { ◌≡◌ {A = (Answer × Entries) × List ℕ} (reading result, buffer.new) (rereading_of list buffer.old) }
{
    let n = write_list(list, buffer)?;
    read_list(&buffer[..n])
}
