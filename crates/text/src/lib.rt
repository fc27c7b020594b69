// Text in a buffer, piece after piece.
#![tactic(auto)]

ghost use Rattle.std.specs.Prelude.{◌+◌, ◌≤◌, ◌<◌, length};
ghost use Rattle.wire.specs.Wire.{Put};
ghost use Rattle.text.specs.Text.{digits, decimal, signed};

const MINUS: [u8; 1] = *b"-";

// Puts a piece at a place, and returns where it ends.
pub fn put(text: &mut [u8], at: usize, piece: &[u8]) -> usize
    requires { at + length piece.now ≤ length text.old }
    ensures { Put text.old at piece.now text.new result }
{
    let end = at + piece.len();
    text[at..end].copy_from_slice(piece);
    end
}

// Puts the last `most` digits of a number.
fn put_digits(text: &mut [u8], at: usize, x: u64, most: usize) -> usize
    requires { at + most ≤ length text.old }
    ensures { Put text.old at (digits most x) text.new result }
{
    if most == 0 {
        return at;
    }
    if x < 10 {
        text[at] = 48 + x as u8;
        return at + 1;
    }
    let last = put_digits(text, at, x / 10, most - 1);
    text[last] = 48 + (x % 10) as u8;
    last + 1
}

// Puts a number in decimal.
pub fn put_decimal(text: &mut [u8], at: usize, x: u64) -> usize
    requires { at + 20 ≤ length text.old }
    ensures { Put text.old at (decimal x) text.new result }
{
    put_digits(text, at, x, 20)
}

// Puts a number in decimal, with a sign where it is below zero.
pub fn put_signed(text: &mut [u8], at: usize, x: i32) -> usize
    requires { at + 21 ≤ length text.old }
    ensures { Put text.old at (signed x) text.new result }
{
    if x < 0 {
        let end = put(text, at, &MINUS);
        return put_decimal(text, end, (0 - x as i64) as u64);
    }
    put_decimal(text, at, x as u64)
}
