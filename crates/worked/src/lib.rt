// Worked examples, proved on the definitions that the contracts of the calls cite.

#![tactic(auto)]

ghost use Rattle.std.specs.Prelude.{◌≡◌, true};
ghost use Rattle.worked.specs.Examples.{Examples};

// That the examples stand is what this promises.
pub fn examples_stand() -> bool
    ensures stands { result ≡ true }
    ensures examples { Examples }
{
    true
}
