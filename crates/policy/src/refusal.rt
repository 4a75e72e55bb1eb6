// What is turned down: the tables of 01 and 02, in their order and by their words.
ghost use Rattle.std.specs.Prelude.{◌≡◌};
ghost use Rattle.policy.specs.Refusals.{refusal};

use crate::header::Header;

#[derive(Clone, Copy)]
pub enum Refusal {
    Missized,
    Version,
    Count,
    // The first crossed entry's number.
    Crossed(usize),
    // The least header that is not caught.
    Gap(Header),
    Party,
    Vacant,
    Bare,
    Crowded,
    // The least header without a common action.
    Conflict(Header),
    // The length needed.
    Narrow(usize),
    Ranking,
}

impl Refusal {
    // The number of a refusal.
    pub fn number(self) -> u8
        ensures { result ≡ (refusal self).number }
    {
        match self {
            Refusal::Missized => 1,
            Refusal::Version => 2,
            Refusal::Count => 3,
            Refusal::Crossed(_) => 4,
            Refusal::Gap(_) => 5,
            Refusal::Party => 6,
            Refusal::Vacant => 7,
            Refusal::Bare => 8,
            Refusal::Crowded => 9,
            Refusal::Conflict(_) => 10,
            Refusal::Narrow(_) => 11,
            Refusal::Ranking => 12,
        }
    }
}
