// The least common multiple, by Euclid's algorithm.
#![tactic(auto)]

ghost use Rattle.std.specs.Prelude.{◌≡◌, ◌≤◌};
ghost use Rattle.lcm.specs.Lcm.{lcm, Gcd};

// Euclid's algorithm: x and y have the common divisors of y and x % y.
fn gcd(a: u32, b: u32) -> u32
    ensures { Gcd a b result }
{
    let mut x = a;
    let mut y = b;
    while y != 0 {
        let rest = x % y;
        x = y;
        y = rest;
    }
    x
}

// The hyperperiod `a` with one more period, `b`. Within a table's limits Euclid's algorithm runs at 32 bits, and nothing wraps.
pub fn least_common_multiple(a: u64, b: u32) -> u64
    requires { (a ≤ 1000000000) × (1 ≤ b) × (b ≤ 1000000) }
    ensures { (result ≡ lcm a b) × (result ≤ 1000000000000000) }
{
    let g = gcd(a as u32, b);
    a * ((b / g) as u64)
}
