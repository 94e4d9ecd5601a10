// Replays sheets against stored answers. Each line of standard input is a name, a colon and a sheet's bytes in hexadecimal,
// `HH*N` for one byte N times; each line written is the name and what the check answers. Where the input isn't of this form, an answer comes
// all the same: a name is what stands before the next colon, a byte any character and the two behind it, and what is no digit counts as 0.
#![tactic(auto)]

ghost use Rattle.std.specs.Prelude.{◌≡◌, ◌-◌, ◌≤◌, ◌<◌, length};

// What stands before the first `wanted` and what is behind it; where there is none, all of it and nothing.
fn split(text: &[u8], wanted: u8) -> (&[u8], &[u8])
    ensures { length result.1.now ≤ length text.now - 1 }
{
    match text.iter().position(|byte| *byte == wanted) {
        Some(at) => (&text[..at], &text[at + 1..]),
        None => (text, b""),
    }
}

// What a hexadecimal digit stands for.
fn digit(character: u8) -> u8
    ensures { result < 16 }
{
    match character {
        b'0'..=b'9' => character - b'0',
        b'A'..=b'F' => character - b'A' + 10,
        _ => 0,
    }
}

// A count, and what is behind it: a space, or what comes after five digits, which are enough for any count here.
fn number(digits: &[u8]) -> (usize, &[u8])
    ensures { length result.1.now ≤ length digits.now }
{
    let mut count: usize = 0;
    for (i, character) in digits.iter().enumerate() {
        if *character == b' ' || 9999 < count {
            return (count, &digits[i..]);
        }
        count = count * 10 + usize::from(digit(*character));
    }
    (count, b"")
}

// How often a byte is meant, and what is behind that: once where no count follows it.
fn times(behind: &[u8]) -> (usize, &[u8])
    ensures { length result.1.now ≤ length behind.now }
{
    match behind.strip_prefix(b"*") {
        Some(digits) => number(digits),
        None => (1, behind),
    }
}

// Writes the bytes that a line has, as long as there is room, and gives how many there are.
fn decode(line: &[u8], sheet: &mut [u8]) -> usize
    ensures { (result ≤ length sheet.old) × (length sheet.new ≡ length sheet.old) }
{
    let mut size: usize = 0;
    let mut rest = line;
    while let [_, high, low, behind @ ..] = rest {
        let byte = digit(*high) * 16 + digit(*low);
        let (count, next) = times(behind);
        let end = size.saturating_add(count).min(sheet.len());
        sheet[size..end].fill(byte);
        size = end;
        rest = next;
    }
    size
}

// The first line's name, and its sheet, checked; gives the lines behind it.
fn replay<'a, R: Print>(rt: &R, text: &'a [u8], sheet: &mut [u8]) -> &'a [u8]
    requires { 0 < length text.now }
    ensures lines { length result.now < length text.now }
    ensures room { length sheet.new ≡ length sheet.old }
{
    let (name, behind) = split(text, b':');
    let (line, next) = split(behind, b'\n');
    let _ = rt.write_all(name);
    let size = decode(line, sheet);
    let _ = match sheet::examine(&sheet[..size]) {
        Ok(_) => println!(rt; ": accepted"),
        Err(refused) => println!(rt; ": {}", refused.refusal),
    };
    next
}

// Standard input takes 26,388 bytes; the sheet has room for one that is one byte too long.
fn main(rt: HostRuntime) {
    let mut text = [0u8; 65536];
    let n = stream::read_full(&rt, &mut text);
    let mut sheet = [0u8; 32769];
    let mut rest = &text[..n];
    while !rest.is_empty() {
        rest = replay(&rt, rest, &mut sheet);
    }
}
