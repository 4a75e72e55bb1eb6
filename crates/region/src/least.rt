// The least header of a box that no row of two lists matches.
ghost use Rattle.std.specs.Prelude.{◌≡◌, false, ◌++◌, length};
ghost use Rattle.policy.specs.Header.{arity, headers};
ghost use Rattle.policy.specs.steps.Findings.{lesser};
ghost use Rattle.policy.specs.Least.{least_in};
ghost use Rattle.policy.specs.Policy.{missed};
ghost use Rattle.policy.specs.Sides.{box_of};
ghost use Rattle.policy.specs.steps.Rows.{sides, rows_in};
ghost use Rattle.region.specs.steps.Corner.{reaches};
ghost use Rattle.region.specs.steps.Searchable.{Searchable, Ready, Remainder};

use crate::cut::{keep_above, keep_up_to, next_field};
use crate::pick::{Picked, pick_header, row_of_two};
use crate::rank::{LEVELS, rank_fields};
use crate::row::row_reaches;
use crate::size::{goes_first, largest_volume};
use policy::header::{Header, low_corner, whole};
use policy::sides::{FIELDS, ROW, SIDES, is_proper, part_in_row};

// Cuts s, a row that holds the low corner of x and not all of it, off x, field by field, and searches each part above it but one, which it leaves
// in x. The row meets x, and none of these parts. The parts that are searched by a call have at most half of the combinations of x.
#[cycle(least_in_piece_search_pieces)]
fn search_pieces(
    a: &[u32],
    b: &[u32],
    x: &mut [u32; SIDES],
    s: &[u32; SIDES],
    best: Option<Header>,
    left: usize,
    levels: u32,
) -> Option<Header>
    requires { (length x.old ≡ sides) × ((reaches arity (box_of s.now 0) (box_of x.old 0) ≡ false) × Ready (rows_in a.now ++ rows_in b.now) (box_of s.now 0) (box_of x.old 0) left) }
    ensures { (length x.new ≡ sides) × Remainder headers (rows_in a.now ++ rows_in b.now) (box_of x.old 0) best left (box_of x.new 0) result }
{
    let mut ranks = [0u32; FIELDS];
    rank_fields(a, b, x, s, levels, &mut ranks);
    let mut g = next_field(x, s, &ranks).unwrap();
    let most = largest_volume(x, levels);
    let mut kept = *x;
    keep_above(&mut kept, s, g);
    keep_up_to(x, s, g);
    let deeper = levels.saturating_sub(1);
    let mut found = best;
    let mut next = next_field(x, s, &ranks);
    while let Some(f) = next {
        let mut upper = *x;
        keep_above(&mut upper, s, f);
        keep_up_to(x, s, f);
        next = next_field(x, s, &ranks);
        if goes_first(&upper, f, &kept, g, most) {
            found = least_in_piece(a, b, &mut upper, found, left - 1, deeper);
        } else {
            found = least_in_piece(a, b, &mut kept, found, left - 1, deeper);
            kept = upper;
            g = f;
        }
    }
    *x = kept;
    found
}

// The lesser of best and the least header of x that no row matches. Once x is narrowed to its headers, the low corner is the one, if no row holds it.
// Else a row that does is cut off x, and what that leaves in x is searched next.
#[cycle(least_in_piece_search_pieces)]
fn least_in_piece(
    a: &[u32],
    b: &[u32],
    x: &mut [u32; SIDES],
    best: Option<Header>,
    left: usize,
    levels: u32,
) -> Option<Header>
    requires { (length x.old ≡ sides) × Searchable (rows_in a.now ++ rows_in b.now) (box_of x.old 0) left }
    ensures { result ≡ lesser (least_in headers (box_of x.old 0) (missed (rows_in a.now ++ rows_in b.now))) best }
{
    let mut found = best;
    let mut n = left;
    let mut picked = pick_header(a, b, x, found);
    loop {
        match picked {
            Picked::Free => {
                return Some(low_corner(x));
            }
            Picked::Covered => {
                return found;
            }
            Picked::Held(i) => {
                let s = row_of_two(a, b, i);
                if row_reaches(&s, 0, x) {
                    return found;
                }
                found = search_pieces(a, b, x, &s, found, n, levels);
                n -= 1;
                picked = pick_header(a, b, x, found);
            }
        }
    }
}

// The lesser of best and the least header of x that no row of a and no row of b matches.
pub fn least_open(a: &[u32], b: &[u32], x: &[u32; SIDES], best: Option<Header>) -> Option<Header>
    ensures { result ≡ lesser (least_in headers (box_of x.now 0) (missed (rows_in a.now ++ rows_in b.now))) best }
{
    let all = whole();
    let mut part = part_in_row(&all, 0, x);
    if !is_proper(&part) {
        return best;
    }
    least_in_piece(a, b, &mut part, best, a.len() / ROW + b.len() / ROW, LEVELS)
}

// The same for the rows of one list.
pub fn least_missed(rows: &[u32], x: &[u32; SIDES], best: Option<Header>) -> Option<Header>
    ensures { result ≡ lesser (least_in headers (box_of x.now 0) (missed (rows_in rows.now))) best }
{
    least_open(rows, &rows[0..0], x, best)
}
