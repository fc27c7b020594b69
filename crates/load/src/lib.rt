// The load of a processor.
#![tactic(auto)]

ghost use Rattle.std.specs.Prelude.{◌≡◌, ◌+◌, ◌*◌, ◌/◌, ◌≤◌, ltb};
ghost use Rattle.load.specs.Nearest.{nearest};

// The work of a processor in one hyperperiod: 0 where it is idle, H where it is full.
#[derive(Clone, Copy)]
pub struct Load(pub u64);

impl Load {
    // No work: `of_task` says so, as a task alone on an idle processor is all of its load.
    pub const IDLE: Load = Load(0);

    pub fn full(h: u64) -> Self
        ensures { result.0 ≡ h }
    {
        Load(h)
    }

    // That of one task alone on an idle processor: C × H / T.
    pub fn of_task(c: u32, t: u32, h: u64) -> Self
        requires { (1 ≤ t) × (c ≤ t) × (t ≤ 1000000) × (h ≤ 1000000000) }
        ensures { (result.0 ≡ c * h / t) × (result.0 ≤ h) }
    {
        Load::IDLE.with_task(c, t, h)
    }

    // With one task more: C × H / T.
    pub fn with_task(self, c: u32, t: u32, h: u64) -> Self
        requires { (1 ≤ t) × (c ≤ t) × (t ≤ 1000000) × (h ≤ 1000000000) × (self.0 ≤ 23 * 1000000000) }
        ensures { result.0 ≡ self.0 + c * h / t }
    {
        let x = c as u64;
        let y = t as u64;
        Load(self.0 + x * h / y)
    }

    // Whether the load is above so many thousandths of a full one.
    pub fn exceeds(self, limit: u32, h: u64) -> bool
        requires { (limit ≤ 1000) × (1 ≤ h) × (h ≤ 1000000000) × (self.0 ≤ 24 * 1000000000) }
        ensures { result ≡ ltb (limit * h) (1000 * self.0) }
    {
        let full = Load::full(h);
        (limit as u64) * full.0 < 1000 * self.0
    }

    // In thousandths of a full one, to the nearest; an exact half to the even one. 24 tasks can make more than a full one.
    pub fn thousandths(self, h: u64) -> u64
        requires { (1 ≤ h) × (self.0 ≤ 24 * 1000000000) }
        ensures { result ≡ nearest self.0 h }
    {
        let x = 1000 * self.0;
        let low = x / h;
        let twice = 2 * (x % h);
        if twice < h {
            return low;
        }
        if h < twice {
            return low + 1;
        }
        low + low % 2
    }
}
