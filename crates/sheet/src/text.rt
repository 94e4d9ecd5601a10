// Texts of a sheet: where nearly all of its bytes stand.
#![tactic(auto, using(crate::proofs::Laws::texts, crate::proofs::Laws::sections))]

ghost use Rattle.std.specs.Prelude.{◌≡◌, true, false, ◌&&◌, cond, ◌+◌, ◌-◌, ◌≤◌, ◌<◌, min, length, get_or};
ghost use Rattle.rules.specs.Field.{printable};
ghost use Rattle.rules.specs.Description as description;
ghost use Rattle.rules.specs.Steps.{At, read_to, after};
ghost use Rattle.sheet.specs.Steps.{printables, BadIs, line_of, bytes_from, CharacterIs};

use super::field;
use rules::{Reason, Refusal};

pub fn is_printable(value: u8) -> bool
    ensures { result ≡ printable value }
{
    matches!(value, b' '..=b'~')
}

// Whether every byte is printable. A bad one doesn't end the loop, so that it is compiled to test many at a time.
pub fn all_printable(bytes: &[u8]) -> bool
    ensures { result ≡ printables bytes.now 0 (length bytes.now) }
{
    let mut all = true;
    for value in bytes {
        all &= is_printable(*value);
    }
    all
}

// Where a bad byte has to be looked for: at `end`, where there is none before it, or from `start` on.
fn past_printable(sheet: &[u8], start: usize, end: usize) -> usize
    requires { (start ≤ end) × (end ≤ length sheet.now) }
    ensures { result ≡ cond (printables sheet.now start (end - start)) end start }
{
    if all_printable(&sheet[start..end]) {
        end
    } else {
        start
    }
}

// The first byte from `from` on that isn't printable, or `end`.
fn next_bad(sheet: &[u8], from: usize, end: usize) -> usize
    requires { (from ≤ end) × (end ≤ length sheet.now) }
    ensures { BadIs sheet.now from end result }
{
    // Kept over places: by `position` the place found is one in a part of the sheet, from which its own is a sum.
    for i in from..end {
        if !is_printable(sheet[i]) {
            return i;
        }
    }
    end
}

// The same where there is seldom one: all bytes are tested first, many at a time.
fn rare_bad(sheet: &[u8], from: usize, end: usize) -> usize
    requires { (from ≤ end) × (end ≤ length sheet.now) }
    ensures { BadIs sheet.now from end result }
{
    if all_printable(&sheet[from..end]) {
        return end;
    }
    next_bad(sheet, from, end)
}

// What is no printable character at `at` of bytes that end at `end`. C2 begins a pair, unless it is the last byte: no B0 can follow it there.
fn other_at(sheet: &[u8], at: usize, end: usize, pairs: bool) -> Result<usize, Refusal>
    requires { (at < end) × (at < length sheet.now → printable (get_or sheet.now at 0) ≡ false) }
    ensures { CharacterIs pairs sheet.now end at (read_to result) }
{
    let Some(&first) = sheet.get(at) else {
        return Err(field::cut_off(sheet));
    };
    if first == 0xC2 && pairs && at + 1 < end {
        return pair_at(sheet, at, end);
    }
    Err(Refusal {
        reason: Reason::BadCharacter,
        place: at,
    })
}

// The pair that C2 begins is one field: half of it is none.
fn pair_at(sheet: &[u8], first: usize, end: usize) -> Result<usize, Refusal>
    requires { (first + 1 < end) × ((first < length sheet.now) × (get_or sheet.now first 0 ≡ 194)) }
    ensures { CharacterIs true sheet.now end first (read_to result) }
{
    let second = first + 1;
    match sheet.get(second) {
        None => Err(field::cut_off(sheet)),
        Some(0xB0) => Ok(second + 1),
        Some(_) => Err(Refusal {
            reason: Reason::BadCharacter,
            place: first,
        }),
    }
}

// Bytes from `from` on up to `end`, of which those before `inside` stand in the sheet: from one that isn't printable to the next.
fn bytes(
    sheet: &[u8],
    from: usize,
    inside: usize,
    end: usize,
    pairs: bool,
) -> Result<usize, Refusal>
    requires { (from ≤ inside) × (inside ≡ min (length sheet.now) end) }
    ensures { read_to result ≡ bytes_from pairs sheet.now end from }
{
    let mut i = next_bad(sheet, from, inside);
    // Kept: no index is counted; a pair is passed as a whole, and the next byte to look at is found behind it.
    while i < end {
        let next = other_at(sheet, i, end, pairs)?;
        i = rare_bad(sheet, next, inside);
    }
    Ok(i)
}

// n characters from `start` on.
fn characters(sheet: &[u8], start: usize, n: u8) -> Result<usize, Refusal>
    requires { start ≤ length sheet.now }
    ensures { read_to result ≡ bytes_from false sheet.now (start + n) start }
{
    let end = start + usize::from(n);
    bytes(sheet, start, sheet.len().min(end), end, false)
}

// A length up to `most`, and as many characters.
pub fn text(sheet: &[u8], at: usize, most: u8) -> Result<usize, Refusal>
    ensures { read_to result ≡ after (description.text 0 most printable) sheet.now (At at) }
{
    let count = field::byte_between(sheet, at, 0, most, Reason::BeyondLimits)?;
    characters(sheet, count.next, count.value)
}

// n bytes of a line from `start` on. Where all are printable, as nearly always, they are passed many at a time.
fn line_bytes(sheet: &[u8], start: usize, n: u8, pairs: bool) -> Result<usize, Refusal>
    requires { start ≤ length sheet.now }
    ensures { read_to result ≡ bytes_from pairs sheet.now (start + n) start }
{
    let end = start + usize::from(n);
    let inside = sheet.len().min(end);
    let i = past_printable(sheet, start, inside);
    if end <= i {
        return Ok(i);
    }
    bytes(sheet, i, inside, end, pairs)
}

// A line of a cell: its length, and as many bytes of characters and, where they are looked for, pairs.
pub fn line(sheet: &[u8], at: usize, pairs: bool) -> Result<usize, Refusal>
    ensures { read_to result ≡ after (line_of pairs) sheet.now (At at) }
{
    let count = field::byte_between(sheet, at, 0, 200, Reason::BeyondLimits)?;
    line_bytes(sheet, count.next, count.value, pairs)
}
