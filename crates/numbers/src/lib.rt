// A number of 32 bits as one of 64, and the lower of two numbers.
#![tactic(auto)]

ghost use Rattle.std.specs.Prelude.{◌≡◌, ◌<◌, min};

// A number of 32 bits as one of 64: its bound is known where it is used.
pub fn wide(x: u32) -> u64
    ensures { (result ≡ x) × (result < 4294967296) }
{
    u64::from(x)
}

// The lower of two numbers.
pub fn lower(a: u64, b: u64) -> u64
    ensures { result ≡ min a b }
{
    a.min(b)
}
