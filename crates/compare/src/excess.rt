// The least header that one list allows an action that another does not.
ghost use Rattle.std.specs.Prelude.{◌≡◌};
ghost use Rattle.policy.specs.Header.{headers};
ghost use Rattle.policy.specs.Policy.{Covering};
ghost use Rattle.policy.specs.steps.Rows.{rows_in};
ghost use Rattle.compare.specs.Comparison.{excess_of};

use policy::header::Header;
use policy::sides::{ROW, actions_at, row_sides};
use region::treated::{Sets, least_treated_behind};

// The least header that the first list allows an action that the second does not. What an entry of the first catches is missed by those
// before it, and is allowed too much where the second, which is covering, allows it a set that lacks an action of the entry.
pub(crate) fn least_excess(first: &[u32], second: &[u32]) -> Option<Header>
    requires { Covering headers (rows_in second.now) }
    ensures { result ≡ excess_of (rows_in first.now) (rows_in second.now) }
{
    let mut found = None;
    for i in 0..first.len() / ROW {
        let at = ROW * i;
        let own = row_sides(first, at);
        found = least_treated_behind(
            &first[0..at],
            second,
            &own,
            Sets::Lacking(actions_at(first, at)),
            false,
            found,
        );
    }
    found
}
