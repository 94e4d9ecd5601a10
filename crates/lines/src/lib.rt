// The lines of an opened page: counted, sought and written, all part after part in one order.
#![tactic(auto)]

ghost use Rattle.std.specs.Prelude.{◌≡◌, ◌≤◌, length};
ghost use Rattle.rules.specs.Limits.{most_lines};
ghost use Rattle.parts.specs.Ahead.{At, ahead};
ghost use Rattle.lines.specs.Walk.{TotalsAre, SoughtIs, LongestIs, FoundIs, WroteIs};

use display_info::Page;
use parts::cursor;
use parts::cursor::Cursor;
use parts::part::PagePart;
use rules::{Reason, Refusal};

// A page's lines and bytes.
#[derive(Clone, Copy)]
pub struct Totals {
    pub lines: usize,
    pub bytes: usize,
}

// A page's lines and bytes, part after part.
pub fn count(p: &Page<'_>) -> Totals
    ensures { TotalsAre p.now.sheet.now p.now.info result }
{
    let mut c = cursor::first(p.info.rows);
    let mut lines: usize = 0;
    let mut bytes: usize = 0;
    // Kept: no index is counted. An iterator of parts would serve this loop alone; in the two below the cursor that is reached is the answer.
    while !cursor::is_end(c) {
        let part = PagePart::at(p, c);
        let n = part.lines(p);
        let more = part.bytes(p, n);
        lines += n;
        bytes += more;
        c = cursor::next(p.sheet, c);
    }
    Totals { lines, bytes }
}

// A line's cursor, and how many lines stand before it.
#[derive(Clone, Copy)]
pub struct Sought {
    pub cursor: Cursor,
    pub passed: usize,
}

// The cursor at line k, or at the end, where the lines before it are all there are.
pub fn seek(p: &Page<'_>, k: usize) -> Sought
    ensures { SoughtIs p.now.sheet.now p.now.info k result }
{
    let mut c = cursor::first(p.info.rows);
    let mut left = k;
    while !cursor::is_end(c) {
        let n = PagePart::at(p, c).lines(p);
        if left < n {
            let cursor = cursor::further(c, left);
            return Sought { cursor, passed: k };
        }
        left -= n;
        c = cursor::next(p.sheet, c);
    }
    Sought {
        cursor: c,
        passed: k - left,
    }
}

// A line that was looked for: the bytes that it needs, and its cursor.
#[derive(Clone, Copy)]
pub struct Found {
    pub size: usize,
    pub cursor: Cursor,
}

// A line that isn't there or doesn't fit: why, and the cursor at which the search ended.
#[derive(Clone, Copy)]
pub struct Unfound {
    pub refusal: Refusal,
    pub cursor: Cursor,
}

impl From<Unfound> for Refusal {
    ghost from_gives = { λ u r. r ≡ u.refusal };

    fn from(unfound: Unfound) -> Refusal {
        unfound.refusal
    }
}

// Line k, to be written into some room.
pub fn find(p: &Page<'_>, k: usize, room: usize) -> Result<Found, Unfound>
    ensures { FoundIs p.now.sheet.now p.now.info k room result }
{
    let sought = seek(p, k);
    let cursor = sought.cursor;
    if cursor::is_end(cursor) {
        return Err(Unfound {
            refusal: Refusal {
                reason: Reason::NoSuchLine,
                place: sought.passed,
            },
            cursor,
        });
    }
    let part = PagePart::at(p, cursor);
    let size = part.line_size(p, cursor.line);
    if room < size {
        return Err(Unfound {
            refusal: Refusal {
                reason: Reason::PageOverBuffer,
                place: size,
            },
            cursor,
        });
    }
    Ok(Found { size, cursor })
}

// The longest of a page's lines, in columns: a border is as long as any line, and without borders all lines are equally long.
pub fn longest_line(p: &Page<'_>) -> usize
    ensures { LongestIs p.now.sheet.now p.now.info result }
{
    let l = p.info.lengths;
    let styles = p.info.styles;
    if styles.top.is_some() {
        return l.border;
    }
    if styles.bottom.is_some() {
        return l.border;
    }
    let first = seek(p, 0);
    if cursor::is_end(first.cursor) {
        return 0;
    }
    l.line
}

// What was written, and the cursor after it.
#[derive(Clone, Copy)]
pub struct Written {
    pub lines: usize,
    pub bytes: usize,
    pub next: Cursor,
}

// Lines from the cursor's on, one after another, as many as there is room for.
pub fn write(page: &mut [u8], p: &Page<'_>, from: Cursor) -> Written
    requires { At p.now.sheet.now p.now.info from × (length (ahead p.now.sheet.now p.now.info from) ≤ most_lines) }
    ensures { WroteIs p.now.sheet.now p.now.info from page.old page.new result }
{
    let mut c = from;
    let mut lines: usize = 0;
    let mut bytes: usize = 0;
    while !cursor::is_end(c) {
        let part = PagePart::at(p, c);
        let drawn = part.draw(&mut page[bytes..], p, c.line);
        lines += drawn.lines;
        bytes += drawn.bytes;
        if !drawn.whole {
            let next = cursor::further(c, drawn.lines);
            return Written { lines, bytes, next };
        }
        c = cursor::next(p.sheet, c);
    }
    Written {
        lines,
        bytes,
        next: c,
    }
}
