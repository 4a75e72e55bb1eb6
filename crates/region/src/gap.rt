// Check 5: the least header that a list does not catch.
ghost use Rattle.std.specs.Prelude.{◌≡◌};
ghost use Rattle.policy.specs.Header.{headers};
ghost use Rattle.policy.specs.Least.{least};
ghost use Rattle.policy.specs.Policy.{missed};
ghost use Rattle.policy.specs.steps.Rows.{rows_in};

use crate::least::least_missed;
use policy::header::{Header, whole};

// The least header that no row matches; nothing if the list is covering.
pub fn first_gap(rows: &[u32]) -> Option<Header>
    ensures { result ≡ least headers (missed (rows_in rows.now)) }
{
    let all = whole();
    least_missed(rows, &all, None)
}
