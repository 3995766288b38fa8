// A fraction of two numbers in lowest terms, by the greatest number that divides both.
#![tactic(auto)]

ghost use Rattle.std.specs.Prelude.{◌≡◌, ◌<◌};
ghost use Rattle.fraction.specs.Fraction.{greatest_common, lowest_terms};

#[derive(Clone, Copy)]
pub struct Fraction {
    pub above: u64,
    pub below: u64,
}

// The greatest number that divides both, by Euclid's division.
fn greatest_common(mut a: u64, mut b: u64) -> u64
    requires { 0 < b }
    ensures { (result ≡ greatest_common a b) × (0 < result) }
{
    while b != 0 {
        (a, b) = (b, a % b);
    }
    a
}

// The fraction in lowest terms; one with nothing below stays as it is.
#[tactic(auto, unfolding(crate::specs::Fraction::lowest_terms))]
pub fn lowest_terms(above: u64, below: u64) -> Fraction
    ensures { result ≡ lowest_terms above below }
{
    if below == 0 {
        return Fraction { above, below };
    }
    let divisor = greatest_common(above, below);
    Fraction {
        above: above / divisor,
        below: below / divisor,
    }
}
