// Writers into a lent buffer, from a place on: what stands before and after is kept.
#![tactic(auto)]

ghost use Rattle.std.specs.Prelude.{◌≡◌, ◌+◌, ◌≤◌, length, replicate};
ghost use Rattle.buffer.specs.Put.{put_at, drawn, lead};

// Writes a byte n times; gives the place after. One byte, as most paddings are, is stored by itself: the loop is compiled to a call.
// The library's `fill` stores the last byte by itself too, and pages take 3 % longer.
pub fn fill(dst: &mut [u8], at: usize, n: usize, b: u8) -> usize
    requires { at + n ≤ length dst.old }
    ensures value { result ≡ at + n }
    ensures dst_after { dst.new ≡ put_at dst.old at (replicate n b) }
{
    let end = at + n;
    if n == 1 {
        dst[at] = b;
    } else {
        for place in &mut dst[at..end] {
            *place = b;
        }
    }
    end
}

// Copies a text; gives the place after. By `copy_from_slice` each text is a call, however short, and pages of short lines take a tenth longer.
pub fn copy(dst: &mut [u8], at: usize, src: &[u8]) -> usize
    requires { at + length src.now ≤ length dst.old }
    ensures value { result ≡ at + length src.now }
    ensures dst_after { dst.new ≡ put_at dst.old at src.now }
{
    for (i, &byte) in src.iter().enumerate() {
        dst[at + i] = byte;
    }
    at + src.len()
}

// The characters at the edges of a line's columns that are drawn: before the first, between two, behind the last.
#[derive(Clone, Copy)]
pub struct Edges {
    pub left: Option<u8>,
    pub junction: Option<u8>,
    pub right: Option<u8>,
}

// Writes a character, if one is drawn; gives the place after.
pub fn draw_edge(dst: &mut [u8], at: usize, edge: Option<u8>) -> usize
    requires { at + length (drawn edge) ≤ length dst.old }
    ensures value { result ≡ at + length (drawn edge) }
    ensures dst_after { dst.new ≡ put_at dst.old at (drawn edge) }
{
    match edge {
        Some(b) => {
            dst[at] = b;
            at + 1
        }
        None => at,
    }
}

// A junction stands before every visible column but the first.
pub fn joins_before(i: usize, junction: Option<u8>) -> Option<u8>
    ensures { result ≡ lead i junction }
{
    if i == 0 { None } else { junction }
}
