// The layout of the search answer in the caller's buffer: its head, the conflict records, and its end.
#![tactic(auto)]

ghost use Rattle.std.specs.Prelude.{◌≡◌, Bool, ◌++◌, ℕ, ◌+◌, ◌*◌, ◌^◌, ◌≤◌, ◌<◌, length, take, drop};
ghost use Rattle.finite.specs.Finite.{first_below};
ghost use Rattle.mask.specs.Mask.{within};
ghost use Rattle.wire.specs.Wire.{mark_bytes, laid};
ghost use Rattle.answer.specs.Asking.{AskedBelow, Answers};
ghost use Rattle.answer.specs.Answer.{found_head, none_head, conflict_bytes, end_bytes, mask_at, is_listed};

const AL: [u8; 2] = *b"AL";

const NO: [u8; 2] = *b"NO";

const NG: [u8; 2] = *b"NG";

const EN: [u8; 2] = *b"EN";

// Puts a mark and n processors at the start of the answer.
fn put_head(answer: &mut [u8], mark: &[u8; 2], processors: &[u8], n: usize)
    requires { (n ≤ length processors.now) × (n + 2 ≤ length answer.old) }
    ensures { answer.new ≡ mark_bytes mark.now ++ take n processors.now ++ drop (n + 2) answer.old }
{
    wire::put_mark(answer, mark);
    answer[2..2 + n].copy_from_slice(&processors[..n]);
}

// Puts the head for a placement of n tasks.
pub fn put_found(answer: &mut [u8], processors: &[u8; 24], n: usize)
    requires { (n ≤ 24) × (n + 2 ≤ length answer.old) }
    ensures { answer.new ≡ found_head (take n processors.now) ++ drop (n + 2) answer.old }
{
    put_head(answer, &AL, processors, n);
}

// Puts the head for no placement of n tasks.
pub fn put_none(answer: &mut [u8], n: usize)
    requires { (n ≤ 24) × (n + 2 ≤ length answer.old) }
    ensures { answer.new ≡ none_head n ++ drop (n + 2) answer.old }
{
    let nowhere = [255u8; 24];
    put_head(answer, &NO, &nowhere, n);
}

// Puts a conflict record behind the first `count`. The list is the answer's part after the head; its rest is lent on.
pub fn append(list: &mut [u8], count: usize, mask: u32)
    requires { 6 * count + 6 ≤ length list.old }
    ensures { list.new ≡ laid (6 * count) (conflict_bytes mask) list.old }
{
    let at = 6 * count;
    wire::put_record(&mut list[at..], &NG, mask);
}

// The mask of conflict j, read as one word.
pub fn mask_at(list: &[u8], j: usize) -> u32
    requires { 6 * j + 6 ≤ length list.now }
    ensures { result ≡ mask_at list.now j }
{
    wire::word_at(list, 6 * j + 2)
}

// Whether conflict j is a subset of the set.
pub fn holds(list: &[u8], j: usize, set: u32) -> bool
    requires { 6 * j + 6 ≤ length list.now }
    ensures { result ≡ within (mask_at list.now j) set }
{
    mask::subset(mask_at(list, j), set)
}

// How many records a search of the list goes through at once. It is a constant, so that the compiler writes the loop over them out: a record then
// takes one comparison and one branch.
const BLOCK: usize = 16;

// Of the n numbers from j on how many come before the first that passes the test; n if none passes.
fn first_in<F: Fn(usize) -> bool>(j: usize, n: usize, test: &F) -> usize
    requires fits { j + n < 2 ^ 64 }
    requires asked { AskedBelow (F.pre test.now) (j + n) }
    ensures first { (p : ℕ → Bool) → Answers (F.post test.now) (j + n) p → result ≡ first_below n (λ i. p (j + i)) }
    ensures upto { result ≤ n }
{
    for i in 0..n {
        if test(j + i) {
            return i;
        }
    }
    n
}

// The first of the numbers below `count` that passes the test, `count` if none does.
fn first_that<F: Fn(usize) -> bool>(count: usize, test: &F) -> usize
    requires { AskedBelow (F.pre test.now) count }
    ensures { (p : ℕ → Bool) → Answers (F.post test.now) count p → result ≡ first_below count p }
{
    let mut j: usize = 0;
    while BLOCK <= count - j {
        let i = first_in(j, BLOCK, test);
        if i < BLOCK {
            return j + i;
        }
        j += BLOCK;
    }
    j + first_in(j, count - j, test)
}

// The first of the first `count` conflicts that is a subset of the set, `count` if none is.
pub fn covering(list: &[u8], count: usize, set: u32) -> usize
    requires { 6 * count ≤ length list.now }
    ensures { result ≡ first_below count (λ j. within (mask_at list.now j) set) }
{
    first_that(count, &|j| holds(list, j, set))
}

// Whether one of the first `count` conflicts has this mask: one word, one comparison for each.
pub fn listed(list: &[u8], count: usize, mask: u32) -> bool
    requires { 6 * count ≤ length list.now }
    ensures { result ≡ is_listed list.now count mask }
{
    first_that(count, &|j| mask_at(list, j) == mask) < count
}

// Puts the end at the start of a lent part.
fn put_end_first(rest: &mut [u8], complete: bool)
    requires { 3 ≤ length rest.old }
    ensures { rest.new ≡ end_bytes complete ++ drop 3 rest.old }
{
    wire::put_mark(rest, &EN);
    rest[2] = complete as u8;
}

// Puts the end behind the first `count` conflicts.
pub fn put_end(list: &mut [u8], count: usize, complete: bool)
    requires { 6 * count + 3 ≤ length list.old }
    ensures { list.new ≡ laid (6 * count) (end_bytes complete) list.old }
{
    let end = 6 * count;
    put_end_first(&mut list[end..], complete);
}
