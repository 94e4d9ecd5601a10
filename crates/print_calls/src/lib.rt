// The calls that print, and what each leaves in a buffer.
#![tactic(auto)]

use page::PrintedLines;
use rules::Reason;
use std::fmt;
use stored::report::Report;

// A byte that no page holds, so that each byte written is seen.
const BLANK: u8 = 7;

// The longest stored page takes 5,247 bytes, so that each leaves room over.
const ROOM: usize = 6000;

// A position past every page.
const LAST: usize = usize::MAX;

// The page, line k, or lines from line k on. No closure: a call that differs is named, so that each would need its name beside it.
#[derive(Clone, Copy)]
enum Call {
    Page,
    Line(usize),
    From(usize),
}

impl fmt::Display for Call {
    fn fmt<W: fmt::Write>(&self, f: &mut fmt::Formatter<W>) -> fmt::Result {
        match self {
            Call::Page => write!(f, "page"),
            Call::Line(k) => write!(f, "line {k}"),
            Call::From(k) => write!(f, "lines from {k}"),
        }
    }
}

impl Call {
    // Only the call for several lines answers a next line: the others count as answering 0.
    fn print(self, sheet: &[u8], buffer: &mut [u8]) -> PrintedLines {
        let printed = match self {
            Call::Page => page::print_page(sheet, buffer),
            Call::Line(k) => page::print_line(sheet, k, buffer),
            Call::From(k) => return page::print_lines(sheet, k, buffer),
        };
        PrintedLines {
            number: printed.number,
            place: printed.place,
            written: printed.written,
            next: 0,
        }
    }
}

// Whether `wanted` stands at the start, and nothing was written behind it.
fn holds(buffer: &[u8], wanted: &[u8]) -> bool {
    buffer
        .strip_prefix(wanted)
        .is_some_and(|rest| rest.iter().all(|&byte| byte == BLANK))
}

// Whether a call answers so and leaves `wanted` in the buffer, of which it is lent `room` bytes.
fn leaves(
    call: Call,
    sheet: &[u8],
    buffer: &mut [u8],
    room: usize,
    answer: PrintedLines,
    wanted: &[u8],
) -> bool {
    buffer.fill(BLANK);
    let end = room.min(buffer.len());
    call.print(sheet, &mut buffer[..end]) == answer && holds(buffer, wanted)
}

// A sheet's calls, tried with one buffer after another in the same space, and what differs of them.
#[derive(Drop)]
pub struct Trial<'a, R> {
    pub report: Report<'a, R>,
    pub sheet: &'a [u8],
    pub buffer: [u8; ROOM],
}

impl<'a, R: Print> Trial<'a, R> {
    pub fn new(rt: &'a R, sheet: &'a [u8]) -> Trial<'a, R> {
        Trial {
            report: Report::new(rt),
            sheet,
            buffer: [BLANK; ROOM],
        }
    }

    // A call that prints all of `wanted` into `room` bytes.
    fn prints(&mut self, call: Call, room: usize, wanted: &[u8], next: u64) {
        let answer = PrintedLines {
            number: 0,
            place: 0,
            written: wanted.len() as u64,
            next,
        };
        let same = leaves(call, self.sheet, &mut self.buffer, room, answer, wanted);
        self.report.compare(format_args!("{call} printed"), same);
    }

    // A call that is refused and leaves all of the buffer as it was.
    fn refuses(&mut self, call: Call, room: usize, number: u64, place: u64) {
        let answer = PrintedLines {
            number,
            place,
            written: 0,
            next: 0,
        };
        let same = leaves(call, self.sheet, &mut self.buffer, room, answer, b"");
        self.report.compare(format_args!("{call} refused"), same);
    }

    // A call into a buffer that `wanted` fills, and into one that is a byte short: 20, and the bytes needed.
    fn tight(&mut self, call: Call, wanted: &[u8], next: u64) {
        let size = wanted.len();
        self.prints(call, size, wanted, next);
        if 0 < size {
            let short = u64::from(Reason::PageOverBuffer);
            self.refuses(call, size - 1, short, size as u64);
        }
    }

    // The page into a full buffer, a short one, and one with room over.
    pub fn pages(&mut self, wanted: &[u8]) {
        self.prints(Call::Page, ROOM, wanted, 0);
        self.tight(Call::Page, wanted, 0);
    }

    // Line k alone, and as the first of several: of those a buffer that it fills holds no second.
    fn line(&mut self, k: usize, wanted: &[u8]) {
        let next = (k as u64).saturating_add(1);
        self.prints(Call::Line(k), ROOM, wanted, 0);
        self.tight(Call::Line(k), wanted, 0);
        self.tight(Call::From(k), wanted, next);
    }

    // The lines from line k to the end, into a buffer that they fill and into one with room over.
    fn rest(&mut self, k: usize, wanted: &[u8], count: u64) {
        self.prints(Call::From(k), ROOM, wanted, count);
        self.prints(Call::From(k), wanted.len(), wanted, count);
    }

    // Every line of the stored page, of which `count` lines are stored; gives how many there are.
    pub fn each_line(&mut self, page: &[u8], count: u64) -> u64 {
        let mut lines: u64 = 0;
        let mut rest = page;
        for (k, wanted) in page.split_inclusive(|&byte| byte == b'\n').enumerate() {
            self.line(k, wanted);
            self.rest(k, rest, count);
            rest = rest.get(wanted.len()..).unwrap_or(b"");
            lines = lines.saturating_add(1);
        }
        lines
    }

    // Positions at and past the line count: 21, and that count, with room over and with none.
    pub fn past_the_end(&mut self, count: u64) {
        let first = count as usize;
        let past = u64::from(Reason::NoSuchLine);
        self.refuses(Call::Line(first), ROOM, past, count);
        self.refuses(Call::Line(first), 0, past, count);
        self.refuses(Call::Line(LAST), ROOM, past, count);
        self.refuses(Call::From(first), ROOM, past, count);
    }

    // A refused sheet: its number comes before 20 and 21.
    pub fn turned_down(&mut self, number: u64, place: u64) {
        self.refuses(Call::Page, ROOM, number, place);
        self.refuses(Call::Page, 0, number, place);
        self.refuses(Call::Line(0), ROOM, number, place);
        self.refuses(Call::Line(LAST), 0, number, place);
        self.refuses(Call::From(0), ROOM, number, place);
    }
}
