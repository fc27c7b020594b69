// The rules of a placement, whole or partial; and a placement as bytes, the processor of each task, and as the set of tasks on each processor.
#![tactic(auto)]

ghost use Rattle.std.specs.Prelude.{◌≡◌, ◌<◌, ◌≤◌};
ghost use Rattle.rules.specs.Sets.{sets_of, Placeable, processor_of, processors_of};

// The rules of document 01, in its order.
#[derive(Clone, Copy)]
pub enum Rule {
    Residence,
    CoResidence,
    Exclusion,
    Memory,
    Utilisation,
    Network,
    Deadline,
}

// A broken rule, with the lowest number concerned.
#[derive(Clone, Copy)]
pub struct Broken {
    pub rule: Rule,
    pub number: usize,
}

// The tasks of a placement on each processor.
pub fn sets_of(placement: &[u8]) -> [u32; 8]
    requires { Placeable placement.now }
    ensures { result ≡ sets_of placement.now }
{
    let mut sets = [0u32; 8];
    for (k, byte) in placement.iter().enumerate() {
        let p = usize::from(*byte);
        sets[p] = mask::insert(sets[p], k);
    }
    sets
}

// The lowest of the m processors that has task k.
fn processor_of(sets: [u32; 8], m: usize, k: usize) -> u8
    requires { (m ≤ 8) × (k < 32) }
    ensures { result ≡ processor_of sets m k }
{
    for p in 0..m {
        if mask::has(sets[p], k) {
            return p as u8;
        }
    }
    m as u8
}

// The processor of each of the n tasks of a whole placement on m processors, 0 beyond the tasks.
pub fn placement_of(sets: [u32; 8], n: usize, m: usize) -> [u8; 24]
    requires { (n ≤ 24) × (m ≤ 8) }
    ensures { result ≡ processors_of sets n m }
{
    let mut bytes = [0u8; 24];
    for k in 0..n {
        bytes[k] = processor_of(sets, m, k);
    }
    bytes
}
