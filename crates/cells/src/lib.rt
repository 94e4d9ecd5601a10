// The wrapped lines of a cell, found one after another. Each is a part of a cell line, which the sheet's reader hands on as a part of the sheet.
#![tactic(auto)]

ghost use Rattle.std.specs.Prelude.{◌≡◌, ◌+◌, ◌≤◌, ◌<◌, leb, length};
ghost use Rattle.rules.specs.Text.{All, text_width};
ghost use Rattle.rules.specs.Limits.{IsText, Printable};
ghost use Rattle.rules.specs.Wrap.{wrap_line, wrap_lines};
ghost use Rattle.laws.proofs.RowBytes.{pairs_of};
ghost use Rattle.table.specs.Walk.{lines_in, lines_end, first_line};
ghost use Rattle.cells.specs.Cell.{rest, TextIs, Inside, HeadIs, PartIn, taken, no_line, FirstOf, Further};

use content_split::{Part, SplitText};
use table::records::Lines;
use table::walk;
use text_width::Text;

// Where the next wrapped line of a cell is looked for: in the first of its cell lines from byte `from` on, and then in those that follow.
// Plain lines have no pair: their columns are their bytes and needn't be counted. `plain` is kept here, since the line after this one is looked
// for where nothing else is known of the cell.
#[derive(Clone, Copy, Default)]
pub struct CellCursor {
    pub lines: Lines,
    pub from: usize,
    pub plain: bool,
}

// A wrapped line, if there was one: bytes `start` to `end` of the cell line that the cursor stands in, and their columns. The cursor says where
// to go on. As an `Option`, whose padding is moved about with it, pages of short lines took 1.4 of the time.
#[derive(Clone, Copy, Default)]
pub struct Next {
    pub found: bool,
    pub start: usize,
    pub end: usize,
    pub columns: usize,
    pub cursor: CellCursor,
}

// The first of some cell lines, a blank one where there is none.
pub fn line_at(sheet: &[u8], lines: Lines) -> &[u8]
    requires { lines_end sheet.now lines ≤ length sheet.now }
    ensures { result.now ≡ first_line sheet.now lines }
{
    if lines.left == 0 {
        return &sheet[0..0];
    }
    walk::line(sheet, lines)
}

// No line, with nothing to come.
fn no_line(lines: Lines, plain: bool) -> Next
    ensures { result ≡ no_line lines plain }
{
    Next {
        found: false,
        start: 0,
        end: 0,
        columns: 0,
        cursor: CellCursor {
            lines,
            from: 0,
            plain,
        },
    }
}

// What was found in the first of some cell lines, which is `text`.
#[inline]
fn take_part(text: Text<'_>, part: Option<Part>, lines: Lines) -> Next
    requires { PartIn text.bytes.now part }
    ensures { result ≡ taken text.entry.bytes.now lines text.entry.plain part }
{
    match part {
        Some(p) => Next {
            found: true,
            start: p.start,
            end: p.end,
            columns: text.columns(p.start, p.end),
            cursor: CellCursor {
                lines,
                from: p.next,
                plain: text.plain,
            },
        },
        None => no_line(lines, text.plain),
    }
}

// A text with no more bytes than the content has columns fits, whatever stands in it.
#[inline]
fn line_fits(text: Text<'_>, width: usize) -> bool
    ensures { result ≡ leb (text_width text.entry.bytes.now) width }
{
    if text.bytes.len() <= width {
        return true;
    }
    text.columns(0, text.bytes.len()) <= width
}

// Some cell lines, one after another.
#[derive(Clone, Copy)]
pub struct CellLines<'a> {
    pub sheet: &'a [u8],
    pub lines: Lines,
    pub ghost inside: { lines_end sheet.now lines ≤ length sheet.now },
}

impl<'a> Iterator for CellLines<'a> {
    ghost use Rattle.std.specs.Iterator.{YieldsFirstRef, item_count};

    type Item = &'a [u8];

    ghost next_gives = { YieldsFirstRef (λ s. lines_in s.sheet.now s.lines) };

    ghost remaining = { item_count (λ s. lines_in s.sheet.now s.lines) };

    #[inline]
    fn next(&mut self) -> Option<&'a [u8]> {
        if self.lines.left == 0 {
            return None;
        }
        let text = walk::line(self.sheet, self.lines);
        self.lines = walk::next_line(self.sheet, self.lines);
        Some(text)
    }
}

// What a cell is wrapped by: the sheet that holds its lines, the columns of its content, and its delimiter.
#[derive(Clone, Copy)]
pub struct Wrapping<'a> {
    pub sheet: &'a [u8],
    pub width: usize,
    pub delimiter: u8,
    pub ghost usable: { (0 < width) × Printable delimiter },
}

impl<'a> Wrapping<'a> {
    #[inline]
    fn split(&self, text: Text<'a>) -> SplitText<'a>
        ensures { (result.text ≡ text.entry) × ((result.width ≡ self.now.width) × (result.delimiter ≡ self.now.delimiter)) }
    {
        SplitText {
            text,
            width: self.width,
            delimiter: self.delimiter,
        }
    }

    // The first line that a cell line wraps into: all of it, where it is no wider than the content.
    #[inline]
    fn first_part(&self, text: Text<'a>) -> Option<Part>
        requires { IsText text.bytes.now }
        ensures { HeadIs self.now.width self.now.delimiter text.entry.bytes.now
            (wrap_line self.now.width self.now.delimiter text.entry.bytes.now) result }
    {
        if line_fits(text, self.width) {
            return Some(Part {
                start: 0,
                end: text.bytes.len(),
                next: text.bytes.len(),
            });
        }
        self.split(text).next_part(0)
    }

    // The first wrapped line of some cell lines. One that is made of delimiters alone may wrap into none.
    pub fn first_line(&self, lines: Lines, plain: bool) -> Next
        requires { (lines_end self.now.sheet.now lines ≤ length self.now.sheet.now) × All (TextIs plain) (lines_in self.now.sheet.now lines) }
        ensures { FirstOf self.now.sheet.now self.now.width self.now.delimiter plain
            (wrap_lines self.now.width self.now.delimiter (lines_in self.now.sheet.now lines)) result }
    {
        let mut c = lines;
        // Kept: the cursor goes into the answer, and counts what is left itself; a `for` over that number would count it twice.
        while 0 < c.left {
            let text = Text {
                bytes: walk::line(self.sheet, c),
                plain,
            };
            let part = self.first_part(text);
            let r = take_part(text, part, c);
            if r.found {
                return r;
            }
            c = walk::next_line(self.sheet, c);
        }
        no_line(c, plain)
    }

    // The next wrapped line of a cell.
    pub fn next_line(&self, c: CellCursor) -> Next
        requires { Inside self.now.sheet.now c }
        ensures { FirstOf self.now.sheet.now self.now.width self.now.delimiter c.plain
            (rest self.now.sheet.now self.now.width self.now.delimiter c) result }
    {
        let lines = c.lines;
        if lines.left == 0 {
            return no_line(lines, c.plain);
        }
        let text = Text {
            bytes: walk::line(self.sheet, lines),
            plain: c.plain,
        };
        let part = self.split(text).next_part(c.from);
        let r = take_part(text, part, lines);
        if r.found {
            return r;
        }
        let others = walk::next_line(self.sheet, lines);
        self.first_line(others, c.plain)
    }

    // The line that comes n lines after t, if there is one.
    pub fn further(&self, t: Next, n: usize) -> Next
        requires { Inside self.now.sheet.now t.cursor }
        ensures { Further self.now.sheet.now self.now.width self.now.delimiter n t result }
    {
        let mut r = t;
        for _ in 0..n {
            if !r.found {
                return r;
            }
            r = self.next_line(r.cursor);
        }
        r
    }

    // How many lines a cell line wraps into: no more than it has bytes, its length byte included.
    #[inline]
    fn line_height(&self, text: Text<'a>) -> usize
        requires { IsText text.bytes.now }
        ensures { (result ≡ length (wrap_line self.now.width self.now.delimiter text.entry.bytes.now))
            × (result ≤ length text.entry.bytes.now + 1) }
    {
        if line_fits(text, self.width) {
            return 1;
        }
        self.split(text).count_parts()
    }

    // How many lines some cell lines wrap into.
    pub fn cell_height(&self, lines: Lines, plain: bool) -> usize
        requires { (lines_end self.now.sheet.now lines ≤ length self.now.sheet.now) × All (TextIs plain) (lines_in self.now.sheet.now lines) }
        ensures { result ≡ length (wrap_lines self.now.width self.now.delimiter (lines_in self.now.sheet.now lines)) }
    {
        let sheet = self.sheet;
        let mut n: usize = 0;
        for bytes in (CellLines { sheet, lines }) {
            n += self.line_height(Text { bytes, plain });
        }
        n
    }
}

// The pairs of some cell lines: the bytes that they have more than columns.
pub fn cell_pairs(sheet: &[u8], lines: Lines) -> usize
    requires { lines_end sheet.now lines ≤ length sheet.now }
    ensures { (result ≡ pairs_of (lines_in sheet.now lines)) × (result ≤ length sheet.now) }
{
    let mut n: usize = 0;
    for text in (CellLines { sheet, lines }) {
        n += text.len() - Text::unknown(text).columns(0, text.len());
    }
    n
}
