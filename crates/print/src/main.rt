// A sheet on standard input becomes its page on standard output, or `refused N at P`; what can't be read or written, a line on standard error.
// A page can be far larger than memory: it goes out by as many whole lines at a time as the space holds, and a row and a line in it are kept
// between them.
#![tactic(auto)]

ghost use Rattle.std.specs.Prelude.{◌+◌, ◌≤◌, length};
ghost use Rattle.rules.specs.Limits.{longest_line};

use parts::cursor;
use rules::Refusal;
use std::fmt;
use std::io::Cursor;
use std::io::prelude::*;
use std::time::Clock;
use stream::Failure;
use table::accepted::AcceptedSheet;

// What couldn't be done.
#[derive(Drop)]
enum Error {
    Unread(Failure),
    Cut(Failure),
    Untold(Failure),
}

impl fmt::Display for Error {
    fn fmt<W: fmt::Write>(&self, f: &mut fmt::Formatter<W>) -> fmt::Result {
        match self {
            Error::Unread(failure) => write!(f, "the sheet can't be read: {failure}"),
            Error::Cut(failure) => {
                write!(f, "the page is cut, its rest can't be written: {failure}")
            }
            Error::Untold(failure) => write!(f, "the refusal can't be written: {failure}"),
        }
    }
}

// Writes `refused N at P` and 0A by one call: a number that is cut would be another number.
fn write_refusal<R: Print + Clock>(rt: &R, refusal: Refusal) -> Result<(), Failure> {
    let mut line = Cursor::new([0u8; 64]);
    let _ = writeln!(line, "{refusal}");
    let n = line.position() as usize;
    let line = line.into_inner();
    stream::write_all(rt, &line[..n.min(line.len())])
}

// Part after part, each from the line after the last one; ends where no more can be written.
fn print<R: Print + Clock>(rt: &R, sheet: &[u8], space: &mut [u8]) -> Result<(), Error>
    requires { longest_line + 1 ≤ length space.old }
{
    let examined = match sheet::examine(sheet) {
        Ok(examined) => examined,
        Err(refused) => return write_refusal(rt, refused.refusal).map_err(Error::Untold),
    };
    let p = display_info::open(&AcceptedSheet { bytes: sheet }, examined.plain);
    let mut c = cursor::first(p.info.rows);
    // Kept: no index is counted; a round ends where the page in it is full.
    while !cursor::is_end(c) {
        let part = lines::write(space, &p, c);
        let n = part.bytes;
        stream::write_all(rt, &space[..n]).map_err(Error::Cut)?;
        c = part.next;
    }
    Ok(())
}

// Room for a sheet that is one byte too long, which is enough to refuse any longer one, and for many lines of a page: the longest has 11,401 bytes.
fn run<R: Input + Print + Clock>(rt: &R) -> Result<(), Error> {
    let mut sheet = [0u8; 32769];
    let n = stream::read_all(rt, &mut sheet).map_err(Error::Unread)?;
    let mut space = [0u8; 65536];
    print(rt, &sheet[..n], &mut space)
}

fn main(rt: HostRuntime) {
    if let Err(error) = run(&rt) {
        let _ = println!(rt.stderr(); "print: {error}");
    }
}
