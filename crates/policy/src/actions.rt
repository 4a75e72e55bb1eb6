// Action sets: 16 bits, an action each.
ghost use Rattle.std.specs.Prelude.{◌≡◌};
ghost use Rattle.policy.specs.Actions.{shared, subset};

// The actions in both sets.
pub fn shared_actions(a: u16, b: u16) -> u16
    ensures { result ≡ shared a b }
{
    a & b
}

// Whether every action of a is in b. Rows hold their sets as u32.
pub fn is_subset(a: u32, b: u32) -> bool
    ensures { result ≡ subset a b }
{
    a & b == a
}
