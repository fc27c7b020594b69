// The format of the table file: the kinds of record, their marks and sizes, and where the records of a kind stand.
#![tactic(auto)]

ghost use Rattle.std.specs.Prelude.{◌≡◌, ◌+◌, ◌≤◌, ◌<◌, length};
ghost use Rattle.layout.specs.Format.{row, shape, shape_of, kind_at, count, start, series_of, place_in, place, longest, Counted};

// The kinds of record, in the file's order.
#[derive(Clone, Copy)]
pub enum Kind {
    Network,
    Processor,
    Task,
    CoResident,
    Exclusive,
    Message,
}

// The records taken so far: how many of each kind, the first kind that may follow, the least common multiple of the periods.
#[derive(Clone, Copy)]
pub struct Progress {
    pub counts: [usize; 6],
    pub next: usize,
    pub hyperperiod: u64,
}

// The numbers of a kind: its place in the order, a record's bytes, how many there may be, the first kind that may follow.
#[derive(Clone, Copy)]
pub struct Shape {
    pub order: usize,
    pub size: usize,
    pub most: usize,
    pub next: usize,
}

// Records of one kind: where the first stands, and the bytes of each.
#[derive(Clone, Copy)]
pub struct Series {
    first: usize,
    size: usize,
}

impl Shape {
    fn new(order: usize, size: usize, most: usize, next: usize) -> Self
        ensures { result ≡ shape order size most next }
    {
        Self {
            order,
            size,
            most,
            next,
        }
    }
}

pub fn shape_of(kind: Kind) -> Shape
    ensures { result ≡ shape_of kind }
{
    match kind {
        Kind::Network => Shape::new(0, 6, 1, 1),
        Kind::Processor => Shape::new(1, 8, 8, 1),
        Kind::Task => Shape::new(2, 22, 24, 2),
        Kind::CoResident => Shape::new(3, 6, 16, 3),
        Kind::Exclusive => Shape::new(4, 6, 16, 4),
        Kind::Message => Shape::new(5, 8, 64, 5),
    }
}

// The kind whose mark stands at a place, if one does.
pub fn kind_at(file: &[u8], at: usize) -> Option<Kind>
    requires { at + 2 ≤ length file.now }
    ensures { result ≡ kind_at file.now at }
{
    if wire::has_mark(file, at, b"NT") {
        return Some(Kind::Network);
    }
    if wire::has_mark(file, at, b"PR") {
        return Some(Kind::Processor);
    }
    if wire::has_mark(file, at, b"TK") {
        return Some(Kind::Task);
    }
    if wire::has_mark(file, at, b"CO") {
        return Some(Kind::CoResident);
    }
    if wire::has_mark(file, at, b"EX") {
        return Some(Kind::Exclusive);
    }
    if wire::has_mark(file, at, b"MS") {
        return Some(Kind::Message);
    }
    None
}

// How many records of a kind were taken.
pub fn count_of(x: Progress, kind: Kind) -> usize
    ensures { result ≡ count x kind }
{
    let shape = shape_of(kind);
    let order = shape.order;
    x.counts[order]
}

// Where the first record of a kind stands, behind those of the kinds before it.
fn first_of(x: Progress, kind: Kind) -> usize
    requires { Counted x }
    ensures { result ≡ start x kind }
{
    let processors = x.counts[0] * 6;
    let tasks = processors + x.counts[1] * 8;
    let co = tasks + x.counts[2] * 22;
    let ex = co + x.counts[3] * 6;
    let messages = ex + x.counts[4] * 6;
    match kind {
        Kind::Network => 0,
        Kind::Processor => processors,
        Kind::Task => tasks,
        Kind::CoResident => co,
        Kind::Exclusive => ex,
        Kind::Message => messages,
    }
}

// The records of a kind, one behind the other.
pub fn series_of(x: Progress, kind: Kind) -> Series
    requires { Counted x }
    ensures { result ≡ series_of x kind }
{
    let shape = shape_of(kind);
    Series {
        first: first_of(x, kind),
        size: shape.size,
    }
}

// Where record j of a series stands.
pub fn place_in(series: Series, j: usize) -> usize
    requires { place_in series j ≤ longest }
    ensures { result ≡ place_in series j }
{
    series.first + series.size * j
}

// Where record j of a kind stands.
pub fn place_of(x: Progress, kind: Kind, j: usize) -> usize
    requires { Counted x × (j < (row kind).most) }
    ensures { result ≡ place x kind j }
{
    place_in(series_of(x, kind), j)
}
