// The calls for C: include/cagwoni.h declares them. A slice is a pointer and a length there.
// None has a `requires`: whatever the host passes, the call answers.
#![tactic(auto)]

ghost use Rattle.std.specs.Prelude.{◌≡◌};
ghost use Rattle.rules.specs.Calls as calls;
ghost use Rattle.rules.specs.Reasons.{reasons};
ghost use Rattle.rules.specs.Writer.{write_sheet};
ghost use Rattle.page.specs.Several.{print_lines};

use page::PrintedLines;
use rules::{Checked, Counted, Measured, Printed, Reasoned};

#[unsafe(no_mangle)]
pub extern "C" fn cagwoni_check(sheet: &[u8]) -> Checked
    ensures { result ≡ calls.check sheet.now }
{
    page::check(sheet)
}

#[unsafe(no_mangle)]
pub extern "C" fn cagwoni_count(sheet: &[u8]) -> Counted
    ensures { result ≡ calls.count sheet.now }
{
    page::count(sheet)
}

#[unsafe(no_mangle)]
pub extern "C" fn cagwoni_widths(sheet: &[u8]) -> Measured
    ensures { result ≡ calls.measure sheet.now }
{
    page::widths(sheet)
}

#[unsafe(no_mangle)]
pub extern "C" fn cagwoni_reasons(sheet: &[u8]) -> Reasoned
    ensures { result ≡ reasons sheet.now }
{
    page::reasons(sheet)
}

#[unsafe(no_mangle)]
pub extern "C" fn cagwoni_print_page(sheet: &[u8], page: &mut [u8]) -> Printed
    ensures value { result ≡ (calls.print_page sheet.now page.old).answer }
    ensures page_after { page.new ≡ (calls.print_page sheet.now page.old).buffer }
{
    page::print_page(sheet, page)
}

#[unsafe(no_mangle)]
pub extern "C" fn cagwoni_print_line(sheet: &[u8], line: usize, page: &mut [u8]) -> Printed
    ensures value { result ≡ (calls.print_line sheet.now line page.old).answer }
    ensures page_after { page.new ≡ (calls.print_line sheet.now line page.old).buffer }
{
    page::print_line(sheet, line, page)
}

#[unsafe(no_mangle)]
pub extern "C" fn cagwoni_print_lines(sheet: &[u8], line: usize, page: &mut [u8]) -> PrintedLines
    ensures value { result ≡ (print_lines sheet.now line page.old).answer }
    ensures page_after { page.new ≡ (print_lines sheet.now line page.old).buffer }
{
    page::print_lines(sheet, line, page)
}

#[unsafe(no_mangle)]
pub extern "C" fn cagwoni_write_sheet(numbers: &[u16], text: &[u8], sheet: &mut [u8]) -> Printed
    ensures value { result ≡ (write_sheet numbers.now text.now sheet.old).answer }
    ensures sheet_after { sheet.new ≡ (write_sheet numbers.now text.now sheet.old).buffer }
{
    writer::write_sheet(numbers, text, sheet)
}
