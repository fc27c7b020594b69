// Sets of numbers below 32 as masks: bit k stands for the number k.
#![tactic(auto)]

ghost use Rattle.std.specs.Prelude.{◌≡◌, true, ◌&&◌, ◌<◌, leb};
ghost use Rattle.std.specs.Iterator.{at_most};
ghost use Rattle.mask.specs.Mask.{has, within, below, cardinality, insert_of, remove_of, lowest_of, mask_of, NextMember};

// Whether k is in the set.
pub fn has(mask: u32, k: usize) -> bool
    requires { k < 32 }
    ensures { result ≡ has mask k }
{
    (mask >> k) % 2 == 1
}

// The set with k.
pub fn insert(mask: u32, k: usize) -> u32
    requires { k < 32 }
    ensures { result ≡ insert_of mask k }
{
    mask | (1 << k)
}

// The set without k.
pub fn remove(mask: u32, k: usize) -> u32
    requires { k < 32 }
    ensures { result ≡ remove_of mask k }
{
    mask - (mask & (1 << k))
}

// Whether every number of c is in s.
pub fn subset(c: u32, s: u32) -> bool
    ensures { result ≡ within c s }
{
    c & s == c
}

// Whether the set names only numbers below n.
pub fn only_below(mask: u32, n: usize) -> bool
    requires { n < 32 }
    ensures { result ≡ below n mask }
{
    mask >> n == 0
}

// Whether the set has two numbers or more.
pub fn at_least_two(mask: u32) -> bool
    ensures { result ≡ leb 2 (cardinality 32 mask) }
{
    2 <= u32::count_ones(mask)
}

// Whether the set has two numbers or more, all of them below n.
pub fn is_group(mask: u32, n: usize) -> bool
    requires { n < 32 }
    ensures { result ≡ (below n mask && leb 2 (cardinality 32 mask)) }
{
    if only_below(mask, n) {
        return at_least_two(mask);
    }
    false
}

// The lowest number of the set, which is not empty.
pub fn lowest(mask: u32) -> usize
    requires { 0 < mask }
    ensures { result ≡ lowest_of 32 mask }
{
    u32::trailing_zeros(mask) as usize
}

// The numbers below n.
pub fn all_below(n: usize) -> u32
    requires { n < 32 }
    ensures { result ≡ mask_of n (λ j. true) }
{
    (1 << n) - 1
}

// The numbers of a set that are still to come, the lowest first.
#[derive(Drop)]
pub struct Ascending {
    left: u32,
}

// The numbers of the set, the lowest first.
pub fn members(set: u32) -> Ascending
    ensures { result.left ≡ set }
{
    Ascending { left: set }
}

impl Iterator for Ascending {
    type Item = usize;

    ghost next_gives = { λ s r t. NextMember s.left r t.left };

    ghost remaining = { λ s. at_most s.left };

    // The lowest number that is still to come; none when all have come.
    fn next(&mut self) -> Option<usize> {
        let left = self.left;
        if left == 0 {
            return None;
        }
        let k = lowest(left);
        self.left = left & (left - 1);
        Some(k)
    }
}
