// Little-endian fields and two-byte marks in byte slices: read, compared and written.
#![tactic(auto)]

ghost use Rattle.std.specs.Prelude.{◌≡◌, ◌++◌, ◌+◌, ◌<◌, ◌≤◌, length, drop};
ghost use Rattle.wire.specs.Wire.{number, mark_at, mark_bytes, record_bytes};

// A byte with its bound.
fn byte(x: u8) -> u32
    ensures { (result ≡ x) × (result < 256) }
{
    u32::from(x)
}

// The 8-bit number at a place.
pub fn byte_at(s: &[u8], at: usize) -> u32
    requires { at < length s.now }
    ensures { (result ≡ number s.now at 1) × (result < 256) }
{
    byte(s[at])
}

// The 16-bit number at a place.
pub fn half_at(s: &[u8], at: usize) -> u32
    requires { at + 2 ≤ length s.now }
    ensures { (result ≡ number s.now at 2) × (result < 65536) }
{
    byte_at(s, at) + byte_at(s, at + 1) * 256
}

// The 32-bit number at a place.
pub fn word_at(s: &[u8], at: usize) -> u32
    requires { at + 4 ≤ length s.now }
    ensures { result ≡ number s.now at 4 }
{
    half_at(s, at) + half_at(s, at + 2) * 65536
}

// Whether the mark stands at a place.
pub fn has_mark(s: &[u8], at: usize, mark: &[u8; 2]) -> bool
    requires { at + 2 ≤ length s.now }
    ensures { result ≡ mark_at s.now at mark.now }
{
    if s[at] == mark[0] {
        return s[at + 1] == mark[1];
    }
    false
}

// Puts the mark at the start of a lent part.
pub fn put_mark(list: &mut [u8], mark: &[u8; 2])
    requires { 2 ≤ length list.old }
    ensures { list.new ≡ mark_bytes mark.now ++ drop 2 list.old }
{
    list[0] = mark[0];
    list[1] = mark[1];
}

// Puts a record of a mark and a 32-bit value at the start of a lent part.
pub fn put_record(list: &mut [u8], mark: &[u8; 2], value: u32)
    requires { 6 ≤ length list.old }
    ensures { list.new ≡ record_bytes mark.now value ++ drop 6 list.old }
{
    put_mark(list, mark);
    list[2] = (value % 256) as u8;
    list[3] = (value / 256 % 256) as u8;
    list[4] = (value / 65536 % 256) as u8;
    list[5] = (value / 16777216 % 256) as u8;
}
