// The bytes of a part's lines. On a plain page they follow from their number; otherwise the pairs that text lines show come on top.
ghost use Rattle.std.specs.Prelude.{◌≡◌, [], ◌+◌, ◌<◌, length, get_or};
ghost use Rattle.rules.specs.Page.{closed};
ghost use Rattle.table.specs.Walk.{rows_in};
ghost use Rattle.display_info.specs.Opened.{RowsAt};
ghost use Rattle.parts.specs.Band.{band_lines, SizedBand};
ghost use Rattle.parts.specs.Part.{lines_in, PartKnown};

use crate::part;
use crate::part::PagePart;
use display_info::{Page, RowStyle};
use table::records::Rows;
use table::walk;

// The bytes of the first of some rows and of the rule after it, n lines of `size` bytes and the pairs that they show. A row without limit shows
// each pair of its visible cells once, so that it needn't be wrapped.
fn band_bytes(p: &Page<'_>, style: RowStyle, here: Rows, n: usize, size: usize) -> usize
    requires known { RowsAt p.now.sheet.now here
        × SizedBand p.now.sheet.now p.now.info.columns.items style (rows_in p.now.sheet.now here) p.now.info.plain size }
    requires counted { n ≡ length (band_lines p.now.sheet.now p.now.info.columns.items style (rows_in p.now.sheet.now here)) }
    ensures { result ≡ length (closed (band_lines p.now.sheet.now p.now.info.columns.items style (rows_in p.now.sheet.now here))) }
{
    if p.info.plain {
        return n * size;
    }
    if here.left == 0 {
        return 0;
    }
    let row = part::row_of(p, here);
    let r = walk::row(row.sheet, here);
    if r.limit == 0 {
        return n * size + row::row_pairs(row.sheet, row.columns, r.cells);
    }
    n * size + row.shown(p.indicator(), 0, n)
}

// The bytes of line n of the first of some rows and of the rule after it, its 0A included.
fn band_line(p: &Page<'_>, style: RowStyle, here: Rows, n: usize, size: usize) -> usize
    requires known { RowsAt p.now.sheet.now here
        × SizedBand p.now.sheet.now p.now.info.columns.items style (rows_in p.now.sheet.now here) p.now.info.plain size }
    requires n_in_bounds { n < length (band_lines p.now.sheet.now p.now.info.columns.items style (rows_in p.now.sheet.now here)) }
    ensures { result ≡ length (get_or (band_lines p.now.sheet.now p.now.info.columns.items style (rows_in p.now.sheet.now here)) n []) + 1 }
{
    if p.info.plain {
        return size;
    }
    let row = part::row_of(p, here);
    if n < part::row_lines(&row) {
        return size + row.shown(p.indicator(), n, n + 1);
    }
    size
}

impl PagePart {
    // The bytes of its lines, which are n.
    pub fn bytes(self, p: &Page<'_>, n: usize) -> usize
        requires known { PartKnown p.now.sheet.now p.now.info self }
        requires counted { n ≡ length (lines_in p.now.sheet.now p.now.info self) }
        ensures { result ≡ length (closed (lines_in p.now.sheet.now p.now.info self)) }
    {
        let lengths = p.info.lengths;
        match self {
            PagePart::Border(_) => n * (lengths.border + 1),
            PagePart::Band(style, here) => band_bytes(p, style, here, n, lengths.line + 1),
        }
    }

    // The bytes of its line n, its 0A included.
    pub fn line_size(self, p: &Page<'_>, n: usize) -> usize
        requires known { PartKnown p.now.sheet.now p.now.info self }
        requires n_in_bounds { n < length (lines_in p.now.sheet.now p.now.info self) }
        ensures { result ≡ length (get_or (lines_in p.now.sheet.now p.now.info self) n []) + 1 }
    {
        let lengths = p.info.lengths;
        match self {
            PagePart::Border(_) => lengths.border + 1,
            PagePart::Band(style, here) => band_line(p, style, here, n, lengths.line + 1),
        }
    }
}
