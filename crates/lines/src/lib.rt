// The lines of the program's listing that hold numbers: each is put at a place of a lent buffer, and its end is returned.
#![tactic(auto)]

ghost use Rattle.std.specs.Prelude.{◌+◌, ◌≤◌, ◌<◌, length};
ghost use Rattle.wire.specs.Wire.{Put};
ghost use Rattle.lines.specs.Lines.{item, margin_text, task_line, pair_line, load_line, member, conflict_line, refused_line};

use schedule::Margin;

const LF: [u8; 1] = *b"\n";

const SPACE: [u8; 1] = *b" ";

const TASK: [u8; 5] = *b"task ";

const ON: [u8; 4] = *b" on ";

const RESPONSE: [u8; 10] = *b" response ";

const DEADLINE: [u8; 10] = *b" deadline ";

const MARGIN: [u8; 8] = *b" margin ";

const BEYOND: [u8; 6] = *b"beyond";

const LOAD: [u8; 5] = *b"load ";

const CONFLICT: [u8; 8] = *b"conflict";

const REFUSED: [u8; 8] = *b"refused ";

// Where a task stands, and how it fares there.
#[derive(Clone, Copy)]
pub struct Stand {
    pub task: usize,
    pub processor: u8,
    pub response: u32,
    pub deadline: u32,
    pub margin: Margin,
}

// Puts a word and a number.
fn put_item(text: &mut [u8], at: usize, word: &[u8], x: u64) -> usize
    requires { at + length word.now + 20 ≤ length text.old }
    ensures { Put text.old at (item word.now x) text.new result × (result ≤ at + length word.now + 20) }
{
    let end = text::put(text, at, word);
    text::put_decimal(text, end, x)
}

// Puts a margin: a number with its sign, or the word `beyond`.
fn put_margin(text: &mut [u8], at: usize, margin: Margin) -> usize
    requires { at + 21 ≤ length text.old }
    ensures { Put text.old at (margin_text margin) text.new result × (result ≤ at + 21) }
{
    match margin {
        Some(x) => text::put_signed(text, at, x),
        None => text::put(text, at, &BEYOND),
    }
}

// The line of a task: where it stands, and how it fares there.
pub fn task_line(text: &mut [u8], at: usize, stand: Stand) -> usize
    requires { at + 192 ≤ length text.old }
    ensures { Put text.old at (task_line stand) text.new result × (result ≤ at + 192) }
{
    let margin = stand.margin;
    let task = put_item(text, at, &TASK, stand.task as u64);
    let on = put_item(text, task, &ON, stand.processor as u64);
    let within = put_item(text, on, &RESPONSE, stand.response as u64);
    let left = put_item(text, within, &DEADLINE, stand.deadline as u64);
    let word = text::put(text, left, &MARGIN);
    let end = put_margin(text, word, margin);
    text::put(text, end, &LF)
}

// A line of a word and two numbers.
fn pair_line(text: &mut [u8], at: usize, word: &[u8], x: u64, y: u64) -> usize
    requires { (at + 128 ≤ length text.old) × (length word.now ≤ 80) }
    ensures { Put text.old at (pair_line word.now x y) text.new result × (result ≤ at + 128) }
{
    let first = put_item(text, at, word, x);
    let end = put_item(text, first, &SPACE, y);
    text::put(text, end, &LF)
}

// The line of a processor: its load.
pub fn load_line(text: &mut [u8], at: usize, p: usize, x: u64) -> usize
    requires { at + 128 ≤ length text.old }
    ensures { Put text.old at (load_line p x) text.new result × (result ≤ at + 128) }
{
    pair_line(text, at, &LOAD, p as u64, x)
}

// Puts task k of a conflict.
fn put_member(text: &mut [u8], at: usize, mask: u32, k: usize) -> usize
    requires { (at + 21 ≤ length text.old) × (k < 32) }
    ensures { Put text.old at (member mask k) text.new result × (result ≤ at + 3) }
{
    if mask::has(mask, k) {
        return put_item(text, at, &SPACE, k as u64);
    }
    at
}

// The line of a conflict: its tasks among the first n, rising.
pub fn conflict_line(text: &mut [u8], at: usize, n: usize, mask: u32) -> usize
    requires { (at + 128 ≤ length text.old) × (n ≤ 24) }
    ensures { Put text.old at (conflict_line n mask) text.new result × (result ≤ at + 128) }
{
    let mut end = text::put(text, at, &CONFLICT);
    for k in 0..n {
        end = put_member(text, end, mask, k);
    }
    text::put(text, end, &LF)
}

// The line of a refusal: its number and place.
pub fn refused_line(text: &mut [u8], at: usize, number: u16, place: usize) -> usize
    requires { at + 128 ≤ length text.old }
    ensures { Put text.old at (refused_line number place) text.new result × (result ≤ at + 128) }
{
    pair_line(text, at, &REFUSED, number as u64, place as u64)
}
