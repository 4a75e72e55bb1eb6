// Rankings of the actions.
ghost use Rattle.std.specs.Prelude.{◌≡◌, true};
ghost use Rattle.policy.specs.Ranking.{action_count, all_below, times, is_ranking, best};

// How many actions there are.
const ACTION_COUNT: u8 = 16;

// Whether each byte is the number of an action.
fn are_actions(numbers: &[u8]) -> bool
    ensures { result ≡ all_below action_count numbers.now }
{
    numbers.iter().all(|&k| k < ACTION_COUNT)
}

// How often a number stands among the bytes.
fn times_in(k: u8, numbers: &[u8]) -> usize
    ensures { result ≡ times k numbers.now }
{
    numbers.iter().filter(|&&j| j == k).count()
}

// Whether the bytes are the numbers of all actions, once each.
pub fn is_ranking(numbers: &[u8]) -> bool
    ensures { result ≡ is_ranking numbers.now }
{
    if numbers.len() != ACTION_COUNT as usize {
        return false;
    }
    if !are_actions(numbers) {
        return false;
    }
    (0..ACTION_COUNT).all(|k| times_in(k, numbers) == 1)
}

// The numbers of all actions, once each, the best first.
#[derive(Clone, Copy)]
pub struct Ranking<'a> {
    pub numbers: &'a [u8],
    ghost all: { is_ranking numbers.now ≡ true },
}

impl Ranking<'_> {
    // The best-ranked action of a set, alone.
    pub fn best_of(self, a: u16) -> u16
        ensures { result ≡ best self.entry.numbers.now a }
    {
        for &k in self.numbers {
            if (a >> k) % 2 == 1 {
                return 1u16 << k;
            }
        }
        0
    }
}
