// The calls: check, count, widths, their reasons, and the page printed as a whole, by a line or by lines.
#![tactic(auto)]

ghost use Rattle.std.specs.Prelude.{◌≡◌, ◌+◌, ◌<◌, ◌^◌, true, IfOk};
ghost use Rattle.rules.specs.Limits.{PlainTable};
ghost use Rattle.rules.specs.Refusals.{number_of};
ghost use Rattle.rules.specs.Calls as calls;
ghost use Rattle.rules.specs.Reasons as reasons;
ghost use Rattle.table.specs.Held.{table_of};
ghost use Rattle.arrangement.specs.Widths.{arranged_widths};
ghost use Rattle.page.specs.Several.{print_lines, refused_lines, printed_lines};

use arrangement::Widths;
use lines::Totals;
use parts::cursor;
use rules::{Checked, Counted, Measured, Printed, Reason, Reasoned, Refusal};
use table::accepted::AcceptedSheet;

// Number and place of the first refusal from the input, both 0 where the sheet is accepted.
pub fn check(sheet: &[u8]) -> Checked
    ensures { result ≡ calls.check sheet.now }
{
    sheet::check(sheet)
}

// Each column's content width and whether it is hidden; of a refused sheet, number and place.
pub fn widths(sheet: &[u8]) -> Measured
    ensures { result ≡ calls.measure sheet.now }
{
    if let Err(refused) = sheet::examine(sheet) {
        return Measured::from(refused.refusal);
    }
    // Locals: an array goes from a field into a literal only by a variable.
    let found = display_info::content_widths(&AcceptedSheet { bytes: sheet });
    let content = found.content;
    let hidden = found.hidden;
    Measured {
        number: 0,
        place: 0,
        columns: found.count as u64,
        content,
        hidden,
    }
}

// Target minus the longest printed line, whose columns the widths give; 0 without a target, where nothing is measured.
fn difference(sheet: &AcceptedSheet<'_>, plain: bool, widths: Widths, target: u16) -> i32
    requires arranged { (widths ≡ arranged_widths (table_of sheet.now.bytes.now)) × (target ≡ (table_of sheet.now.bytes.now).target) }
    requires plain_table { plain ≡ true → PlainTable (table_of sheet.now.bytes.now) }
    ensures { result ≡ reasons.difference (table_of sheet.now.bytes.now) }
{
    if target == 0 {
        return 0;
    }
    let p = display_info::open_by(sheet, plain, widths);
    let longest = lines::longest_line(&p);
    width_steps::difference(target, longest)
}

// The step that set each column's width, whether the remainder widened it, and the difference; of a refused sheet, number and place.
pub fn reasons(sheet: &[u8]) -> Reasoned
    ensures { result ≡ reasons.reasons sheet.now }
{
    let examined = match sheet::examine(sheet) {
        Ok(examined) => examined,
        Err(refused) => return Reasoned::from(refused.refusal),
    };
    let accepted = AcceptedSheet { bytes: sheet };
    let found = width_steps::explain(&accepted);
    let widths = found.widths;
    let step = found.step;
    let widened = found.widened;
    let difference = difference(&accepted, examined.plain, widths, found.target);
    Reasoned {
        number: 0,
        place: 0,
        columns: widths.count as u64,
        step,
        widened,
        has_difference: found.target != 0,
        difference,
    }
}

// The page's line count and byte count; of a refused sheet, number and place.
pub fn count(sheet: &[u8]) -> Counted
    ensures { result ≡ calls.count sheet.now }
{
    let examined = match sheet::examine(sheet) {
        Ok(examined) => examined,
        Err(refused) => return Counted::from(refused.refusal),
    };
    let accepted = AcceptedSheet { bytes: sheet };
    let p = display_info::open(&accepted, examined.plain);
    let totals = lines::count(&p);
    Counted {
        number: 0,
        place: 0,
        lines: totals.lines as u64,
        bytes: totals.bytes as u64,
    }
}

// The page over the buffer's start, and its bytes. It is counted before it is written, so that a short buffer keeps every byte.
pub fn write_page(sheet: &[u8], page: &mut [u8]) -> Result<usize, Refusal>
    ensures value { calls.printed_of result ≡ (calls.print_page sheet.now page.old).answer }
    ensures page_after { page.new ≡ (calls.print_page sheet.now page.old).buffer }
{
    let examined = sheet::examine(sheet)?;
    let accepted = AcceptedSheet { bytes: sheet };
    let p = display_info::open(&accepted, examined.plain);
    let totals = lines::count(&p);
    if page.len() < totals.bytes {
        return Err(Refusal {
            reason: Reason::PageOverBuffer,
            place: totals.bytes,
        });
    }
    let wrote = lines::write(page, &p, cursor::first(p.info.rows));
    Ok(wrote.bytes)
}

// The same, as the call for C answers it.
pub fn print_page(sheet: &[u8], page: &mut [u8]) -> Printed
    ensures value { result ≡ (calls.print_page sheet.now page.old).answer }
    ensures page_after { page.new ≡ (calls.print_page sheet.now page.old).buffer }
{
    Printed::from(write_page(sheet, page))
}

// Line k over the buffer's start, and its bytes: the lines before it are passed over, and none of them is drawn.
pub fn write_line(sheet: &[u8], line: usize, page: &mut [u8]) -> Result<usize, Refusal>
    ensures value { calls.printed_of result ≡ (calls.print_line sheet.now line page.old).answer }
    ensures page_after { page.new ≡ (calls.print_line sheet.now line page.old).buffer }
{
    let examined = sheet::examine(sheet)?;
    let accepted = AcceptedSheet { bytes: sheet };
    let p = display_info::open(&accepted, examined.plain);
    let found = lines::find(&p, line, page.len())?;
    let needed = found.size;
    let drawn = lines::write(&mut page[..needed], &p, found.cursor);
    Ok(drawn.bytes)
}

// The same, as the call for C answers it.
pub fn print_line(sheet: &[u8], line: usize, page: &mut [u8]) -> Printed
    ensures value { result ≡ (calls.print_line sheet.now line page.old).answer }
    ensures page_after { page.new ≡ (calls.print_line sheet.now line page.old).buffer }
{
    Printed::from(write_line(sheet, line, page))
}

// What the call for several lines answers: beside the bytes written, the number of the line after them.
#[repr(C)]
#[derive(Clone, Copy, PartialEq, Eq)]
pub struct PrintedLines {
    pub number: u64,
    pub place: u64,
    pub written: u64,
    pub next: u64,
}

impl From<Refusal> for PrintedLines {
    ghost from_gives = { λ r p. p ≡ refused_lines (number_of r.reason) r.place };

    fn from(refusal: Refusal) -> PrintedLines {
        PrintedLines {
            number: u64::from(refusal.reason),
            place: refusal.place as u64,
            written: 0,
            next: 0,
        }
    }
}

// Lines from line k on over the buffer's start, as many whole ones as it holds: how many, and their bytes.
pub fn write_lines(sheet: &[u8], line: usize, page: &mut [u8]) -> Result<Totals, Refusal>
    ensures value { printed_lines line result ≡ (print_lines sheet.now line page.old).answer }
    ensures page_after { page.new ≡ (print_lines sheet.now line page.old).buffer }
    ensures few { IfOk result (λ t. line + t.lines < 2 ^ 64) }
{
    let examined = sheet::examine(sheet)?;
    let accepted = AcceptedSheet { bytes: sheet };
    let p = display_info::open(&accepted, examined.plain);
    let found = lines::find(&p, line, page.len())?;
    let wrote = lines::write(page, &p, found.cursor);
    Ok(Totals {
        lines: wrote.lines,
        bytes: wrote.bytes,
    })
}

// The same, as the call for C answers it.
pub fn print_lines(sheet: &[u8], line: usize, page: &mut [u8]) -> PrintedLines
    ensures value { result ≡ (print_lines sheet.now line page.old).answer }
    ensures page_after { page.new ≡ (print_lines sheet.now line page.old).buffer }
{
    match write_lines(sheet, line, page) {
        Ok(wrote) => PrintedLines {
            number: 0,
            place: 0,
            written: wrote.bytes as u64,
            next: (line + wrote.lines) as u64,
        },
        Err(refusal) => PrintedLines::from(refusal),
    }
}
