// Reads a sheet on standard input through a page reader, line after line, and writes its page. The sheet is the trial desk's: a style other than the
// house grid is named, and so is a bare style that sets anything, so that only the page comes out where both are as they should be.
#![tactic(auto)]

use reader::PageReader;
use rules::{Reason, Refusal, STYLE_CHARACTERS};
use style::table_style::TableStyle;

// Where a sheet without an indicator has its style's characters.
const STYLE: usize = 7;

// The most lines of a page.
const MOST_LINES: usize = 1000000;

// The constants by their names, against the sheet's style and against a style that sets nothing.
fn try_styles<R: Print>(rt: &R, sheet: &[u8]) {
    let Some(style) = sheet.get(STYLE..STYLE + STYLE_CHARACTERS) else {
        return;
    };
    if characters(TableStyle::HOUSE_GRID).as_slice() != style {
        let _ = println!(rt; "not the house grid");
    }
    if characters(TableStyle::BARE) != [0; STYLE_CHARACTERS] {
        let _ = println!(rt; "not bare");
    }
}

// The characters of a style in the order of the sheet.
fn characters(s: TableStyle) -> [u8; STYLE_CHARACTERS] {
    let a = s.top_border;
    let b = s.header_lines;
    let c = s.header_separator;
    let d = s.content_lines;
    let e = s.row_separator;
    let f = s.bottom_border;
    [
        a.left, a.fill, a.junction, a.right, b.left, b.junction, b.right, c.left, c.fill,
        c.junction, c.right, d.left, d.junction, d.right, e.left, e.fill, e.junction, e.right,
        f.left, f.fill, f.junction, f.right,
    ]
}

// Line after line; gives the refusal that ends the page, which is that there is no such line.
fn read_page<R: Print>(rt: &R, sheet: &[u8], buffer: &mut [u8]) -> Option<Refusal> {
    let mut reader = PageReader::new(sheet);
    for _ in 0..=MOST_LINES {
        match reader.next(buffer) {
            Ok(n) => {
                let _ = rt.write_all(buffer.get(..n).unwrap_or(b""));
            }
            Err(refusal) => return Some(refusal),
        }
    }
    None
}

// Room for a sheet that is one byte too long, and for many lines of a page: the longest has 11,401 bytes.
fn main(rt: HostRuntime) {
    let mut space = [0u8; 32769];
    let n = stream::read_full(&rt, &mut space);
    let mut buffer = [0u8; 65536];
    let last = read_page(&rt, &space[..n], &mut buffer);
    if let Some(refusal) = last.filter(|refusal| refusal.reason != Reason::NoSuchLine) {
        let _ = println!(rt; "{refusal}");
    }
    try_styles(&rt, &space[..n]);
}
