// Where a line of a cell is split: comfy-table's `content_split`, by positions in the text. A wrapped line is always a part of the text,
// whose own delimiters stand in it. A character is a byte or a pair, and takes one column.
#![tactic(auto)]

ghost use Rattle.std.specs.Prelude.{◌≡◌, ◌≤◌, ◌<◌, length, map};
ghost use Rattle.rules.specs.Text.{text_width, greatest};
ghost use Rattle.rules.specs.Wrap.{split};
ghost use Rattle.text_width.specs.Measure.{IsPlain};
ghost use Rattle.content_split.specs.Cut.{Near, Start, Back, AtWidth, Straddle, Sound, Long};
ghost use Rattle.content_split.specs.Parts.{LineIs, PartIs};

use text_width::Text;

// A text, the columns that its lines may have, and the delimiter at which it is split.
#[derive(Clone, Copy)]
pub struct SplitText<'a> {
    pub text: Text<'a>,
    pub width: usize,
    pub delimiter: u8,
    pub ghost some: { 0 < width },
}

// A wrapped line, from `start` up to `end`, and the place where the next one is looked for.
#[derive(Clone, Copy)]
pub struct Part {
    pub start: usize,
    pub end: usize,
    pub next: usize,
}

// This and the next two look for a delimiter, and need no width: they stay functions of bytes, and ask for none. Their loops go over places, since a
// place is the answer: by `position` it is one in a part of the text, and the place in the text a sum.

// The first delimiter of `text` at or after `from`, or the text's length. A piece is followed no further than just past `most` bytes, so
// that a long word isn't gone through again for each of its lines.
pub fn piece_end(text: &[u8], from: usize, delimiter: u8, most: usize) -> usize
    requires { from ≤ length text.now }
    ensures { Near delimiter text.now from most result }
{
    for e in from..text.len() {
        if text[e] == delimiter {
            return e;
        }
        if most < e - from {
            return e;
        }
    }
    text.len()
}

// The first byte of `text` at or after `from` that is no delimiter, or the text's length: empty pieces leave a line empty.
pub fn line_start(text: &[u8], from: usize, delimiter: u8) -> usize
    requires { from ≤ length text.now }
    ensures { Start delimiter text.now from result }
{
    for s in from..text.len() {
        if text[s] != delimiter {
            return s;
        }
    }
    text.len()
}

// The last delimiter of `text` after `from` and before `to`; or `from`, where there is none.
fn last_before(text: &[u8], from: usize, to: usize, delimiter: u8) -> usize
    requires { (from < to) × (to ≤ length text.now) }
    ensures { Back delimiter text.now from to result }
{
    for e in (from + 1..to).rev() {
        if text[e] == delimiter {
            return e;
        }
    }
    from
}

// Kept `inline(always)`: what `split_line` calls of this type goes into it, so that `plain` is a constant there; without, pages of short lines took
// half as long again. `Sound` stays a clause: it is of a place too, which `Parts` alone has.
impl<'a> SplitText<'a> {
    // Whether the piece from `from` on has more columns than the width.
    #[inline(always)]
    fn long_piece(&self, from: usize) -> bool
        requires { from ≤ length self.now.text.bytes.now }
        ensures { Long self.now.width self.now.delimiter self.now.text.bytes.now from result }
    {
        let text = self.text;
        if text.bytes.len() - from < self.width {
            return false;
        }
        let far = text.reach(from, self.width);
        if 0 < far.left {
            return false;
        }
        let most = far.at - from;
        let e = piece_end(text.bytes, from, self.delimiter, most);
        far.at < e
    }

    // The line from `start` on, where a piece goes on past `stop`, at which the width is reached: the line ends before that piece, or is
    // filled with it.
    #[inline(always)]
    fn straddled(&self, start: usize, stop: usize) -> Part
        requires { Straddle self.now.width self.now.delimiter self.now.text.bytes.now start stop
            × Sound self.now.delimiter self.now.text.bytes.now start }
        ensures { LineIs self.now.width self.now.delimiter self.now.text.bytes.now start result.start result.end result.next }
    {
        let end = last_before(self.text.bytes, start, stop, self.delimiter);
        if end == start {
            return Part {
                start,
                end: stop,
                next: stop,
            };
        }
        let next = end + 1;
        let free = self.text.columns(next, stop);
        if 2 < free {
            let long = self.long_piece(next);
            if long {
                return Part {
                    start,
                    end: stop,
                    next: stop,
                };
            }
        }
        Part { start, end, next }
    }

    // The line from `start` on, where the width is reached at `stop`: it ends there if a piece does, on either side.
    #[inline(always)]
    fn at_width(&self, start: usize, stop: usize) -> Part
        requires { AtWidth self.now.width self.now.delimiter self.now.text.bytes.now start stop
            × Sound self.now.delimiter self.now.text.bytes.now start }
        ensures { LineIs self.now.width self.now.delimiter self.now.text.bytes.now start result.start result.end result.next }
    {
        let text = self.text.bytes;
        if text[stop - 1] == self.delimiter {
            return Part {
                start,
                end: stop - 1,
                next: stop,
            };
        }
        if text.len() == stop {
            return Part {
                start,
                end: text.len(),
                next: text.len(),
            };
        }
        if text[stop] == self.delimiter {
            return Part {
                start,
                end: stop,
                next: stop + 1,
            };
        }
        self.straddled(start, stop)
    }

    // The next line that the text is split into, from `from` on. Always put into its callers: it is a test and a call.
    #[inline(always)]
    pub fn next_part(&self, from: usize) -> Option<Part>
        requires { (from ≤ length self.now.text.bytes.now) × Sound self.now.delimiter self.now.text.bytes.now from }
        ensures { PartIs self.now.width self.now.delimiter self.now.text.bytes.now from result }
    {
        if self.text.plain {
            return split_line::<true>(self.text.bytes, from, self.width, self.delimiter);
        }
        split_paired(self.text.bytes, from, self.width, self.delimiter)
    }

    // All lines that the text is split into.
    #[inline]
    pub fn parts(&self) -> Parts<'a>
        requires { Sound self.now.delimiter self.now.text.bytes.now 0 }
        ensures { (result.split ≡ self.now) × (result.from ≡ 0) }
    {
        Parts {
            split: *self,
            from: 0,
        }
    }

    // How many these are.
    #[inline]
    pub fn count_parts(&self) -> usize
        requires { Sound self.now.delimiter self.now.text.bytes.now 0 }
        ensures { result ≡ length (split self.now.width self.now.delimiter self.now.text.bytes.now) }
    {
        self.parts().count()
    }

    // The columns of the longest of them, or 0.
    #[inline]
    pub fn longest_part(&self) -> usize
        requires { Sound self.now.delimiter self.now.text.bytes.now 0 }
        ensures { result ≡ greatest (map text_width (split self.now.width self.now.delimiter self.now.text.bytes.now)) }
    {
        let mut longest: usize = 0;
        for part in self.parts() {
            longest = longest.max(self.text.columns(part.start, part.end));
        }
        longest
    }
}

// The next line that a text is split into, from `from` on. It is looked for backwards from the place where the width is reached: most bytes
// of a plain text aren't read. Each kind of text is compiled by itself. Kept: four parameters, since a struct goes through memory, and pages of
// short lines took a sixth longer.
fn split_line<const PLAIN: bool>(
    bytes: &[u8],
    from: usize,
    width: usize,
    delimiter: u8,
) -> Option<Part>
    requires { (from ≤ length bytes.now) × ((0 < width) × (Sound delimiter bytes.now from × IsPlain PLAIN bytes.now)) }
    ensures { PartIs width delimiter bytes.now from result }
{
    let start = line_start(bytes, from, delimiter);
    if bytes.len() <= start {
        return None;
    }
    let rest = Part {
        start,
        end: bytes.len(),
        next: bytes.len(),
    };
    if bytes.len() - start < width {
        return Some(rest);
    }
    let text = Text {
        bytes,
        plain: PLAIN,
    };
    let place = text.reach(start, width);
    if 0 < place.left {
        return Some(rest);
    }
    let split = SplitText {
        text,
        width,
        delimiter,
    };
    Some(split.at_width(start, place.at))
}

// The same of a text that may have pairs. It stands apart, so that what is done for plain texts is short enough to go into its callers.
#[inline(never)]
pub fn split_paired(bytes: &[u8], from: usize, width: usize, delimiter: u8) -> Option<Part>
    requires { (from ≤ length bytes.now) × ((0 < width) × Sound delimiter bytes.now from) }
    ensures { PartIs width delimiter bytes.now from result }
{
    split_line::<false>(bytes, from, width, delimiter)
}

// The lines that a text is split into from `from` on.
#[derive(Clone, Copy)]
pub struct Parts<'a> {
    pub split: SplitText<'a>,
    pub from: usize,
    pub ghost sound: { (from ≤ length split.text.bytes.now) × Sound split.delimiter split.text.bytes.now from },
}

impl<'a> Iterator for Parts<'a> {
    ghost use Rattle.std.specs.Prelude.{◌-◌};
    ghost use Rattle.std.specs.Iterator.{at_most};
    ghost use Rattle.content_split.specs.Steps.{GivesPart};

    type Item = Part;

    ghost next_gives = { GivesPart };

    ghost remaining = { λ s. at_most (length s.split.text.bytes.now - s.from) };

    #[inline]
    fn next(&mut self) -> Option<Part> {
        let part = self.split.next_part(self.from)?;
        self.from = part.next;
        Some(part)
    }
}
