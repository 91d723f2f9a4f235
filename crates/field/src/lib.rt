// Bytes at a place of lent memory: read, compared, written; and numbers at a place, low byte first.
#![tactic(auto)]

ghost use Rattle.std.specs.Prelude.{◌≡◌, ◌+◌, ◌≤◌, length, get_or};
ghost use Rattle.field.specs.Part.{Wrote};
ghost use Rattle.field.specs.Bytes.{has_at};
ghost use Rattle.field.specs.Number.{get_w, put_w};

// The byte at i, and 0 past the end: so that an index asks nothing.
pub fn byte_at(s: &[u8], i: usize) -> u8
    ensures { result ≡ get_or s.now i 0 }
{
    if i < s.len() { s[i] } else { 0 }
}

// Whether the bytes of word stand in s at the place at.
pub fn has_at(s: &[u8], at: usize, word: &[u8]) -> bool
    ensures { result ≡ has_at s.now at word.now }
{
    if s.len() < at {
        return word.is_empty();
    }
    s[at..].starts_with(word)
}

// Writes all of src from at on, and gives the place after it. The loop asks nothing from outside: of copy_from_slice the compiler makes a call of memmove,
// which the C archive does not need otherwise.
pub fn put_bytes(out: &mut [u8], at: usize, src: &[u8]) -> usize
    requires { at + length src.now ≤ length out.old }
    ensures { Wrote out.old at src.now out.new result }
{
    for j in 0..src.len() {
        out[at + j] = src[j];
    }
    at + src.len()
}

pub fn get32(b: &[u8], at: usize) -> u32
    requires { at + 4 ≤ length b.now }
    ensures { result ≡ get_w 4 b.now at }
{
    u32::from_le_bytes([b[at], b[at + 1], b[at + 2], b[at + 3]])
}

pub fn put32(b: &mut [u8], at: usize, v: u32)
    requires { at + 4 ≤ length b.old }
    ensures { b.new ≡ put_w 4 b.old at v }
{
    b[at..at + 4].copy_from_slice(&v.to_le_bytes());
}
