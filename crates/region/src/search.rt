// The search of a region: the least header of a box that a file's list treats in a wanted way.
ghost use Rattle.std.specs.Prelude.{Ok, ◌≡◌, ◌≤◌, length, None};
ghost use Rattle.policy.specs.Header.{headers};
ghost use Rattle.policy.specs.Least.{least_in};
ghost use Rattle.region.specs.declared.search.Want.TheVariants.{CaughtBy};
ghost use Rattle.policy.specs.Sides.{box_of};
ghost use Rattle.wire.specs.Format.{list_limit, place_in, entries_from};
ghost use Rattle.region.specs.Search.{treated, least_in_box, search_of, searched};
ghost use Rattle.region.specs.steps.Treated.{finding_answer, Finds};

use crate::differing::least_differing;
use crate::missed::{least_uncaught, missed_by_first};
use crate::treated::Finding;
use policy::direction::is_crossed_box;
use policy::entry::sides_of;
use policy::header::Header;
use policy::refusal::Refusal;
use policy::sides::{SIDES, part_in_row};
use wire::check::check_file;
use wire::format::LIST_LIMIT;
use wire::record::entry_in;

// What is looked for.
#[derive(Clone, Copy)]
pub enum Want {
    // Not caught.
    Uncaught,
    // Caught by the entry with this number.
    CaughtBy(usize),
    // Allowed a set that differs from this one.
    Differs(u16),
}

// A header that was searched for, and the number of the entry that catches it, if one does.
#[derive(Clone, Copy)]
pub struct FoundHeader {
    pub header: Header,
    pub entry: Option<usize>,
}

// The least header of b that entry number k of a good file catches: in the entry's part, the least that the entries before it miss. Mostly that is the
// part's least header.
fn least_caught_by(file: &[u8], n: usize, b: &[u32; SIDES], k: usize) -> Option<Header>
    requires { (length file.now ≡ place_in file.now n) × ((1 ≤ n) × (n ≤ list_limit)) }
    ensures { result ≡ least_in headers (box_of b.now 0) (treated (CaughtBy k) (entries_from file.now 0 n)) }
{
    if n <= k {
        return None;
    }
    let sides = sides_of(entry_in(file, k));
    let part = part_in_row(&sides, 0, b);
    missed_by_first(file, k, &part, 0)
}

// The least header of b that a good file's list of n entries treats as wanted, and what catches it. A crossed box holds none, also one that is crossed by its
// direction alone.
fn search_good(file: &[u8], n: usize, b: &[u32; SIDES], want: Want) -> Finding
    requires { (length file.now ≡ place_in file.now n) × ((1 ≤ n) × (n ≤ list_limit)) }
    ensures { Finds (entries_from file.now 0 n) (least_in_box (box_of b.now 0) (treated want (entries_from file.now 0 n))) None result }
{
    if is_crossed_box(b) {
        return Finding {
            found: None,
            by: None,
        };
    }
    match want {
        Want::Uncaught => Finding {
            found: least_uncaught(file, n, b),
            by: None,
        },
        Want::CaughtBy(k) => Finding {
            found: least_caught_by(file, n, b, k),
            by: Some(k),
        },
        Want::Differs(s) => least_differing(file, n, b, s),
    }
}

// A finding as an answer.
fn answer(f: Finding) -> Option<FoundHeader>
    ensures { searched (Ok result) ≡ finding_answer f.found f.by }
{
    let header = f.found?;
    Some(FoundHeader {
        header,
        entry: f.by,
    })
}

// Checks 1 to 4, and then the least header of b that the file's list treats as wanted, and what catches it.
pub fn search_file(
    file: &[u8],
    b: &[u32; SIDES],
    want: Want,
) -> Result<Option<FoundHeader>, Refusal>
    ensures { searched result ≡ search_of file.now (box_of b.now 0) want }
{
    let n = check_file(file, LIST_LIMIT)?;
    Ok(answer(search_good(file, n, b, want)))
}
