// Standard input and output, with an error told from the end of the input. What was interrupted or wasn't ready is tried again.
#![tactic(auto)]

ghost use Rattle.std.specs.Prelude.{◌≡◌, ◌≤◌, length, IfOk, IfErr};
ghost use Rattle.io.specs.Counts.{IsPrefixLen};

use std::io::prelude::*;
use std::io::{Cursor, ErrorKind};
use std::time::{Clock, Duration};
use std::{fmt, io, str, thread};

// A proved loop has to end. So many calls may read an input or write one text: far more than either has bytes, and, where they find nothing ready,
// a quarter of an hour of pauses.
const TURNS: u32 = 1000000;

// Why no more bytes were moved.
#[derive(Drop)]
pub enum Cause {
    System(io::Error),
    NeverReady,
}

// Where reading or writing ended before its end: so many bytes were moved.
#[derive(Drop)]
pub struct Failure {
    pub done: usize,
    pub cause: Cause,
}

// The system's words for an error, without its number.
fn reason(text: &str) -> &str {
    match text.split_once(" (os error ") {
        Some((words, _)) => words,
        None => text,
    }
}

impl fmt::Display for Failure {
    fn fmt<W: fmt::Write>(&self, f: &mut fmt::Formatter<W>) -> fmt::Result {
        match &self.cause {
            Cause::System(error) => {
                let mut words = Cursor::new([0u8; 128]);
                let _ = write!(words, "{error}");
                let space = words.into_inner();
                let text = str::from_utf8(&space).unwrap_or("");
                f.write_str(reason(text.trim_end_matches('\0')))
            }
            Cause::NeverReady => f.write_str("not ready for too long"),
        }
    }
}

// Whether the call that has just failed is worth another turn: at once if it was interrupted, after a pause if nothing was ready.
fn again<C: Clock>(clock: &C, error: io::Error, done: usize) -> Result<(), Failure>
    ensures { IfErr result (λ f. f.done ≡ done) }
{
    match error.kind() {
        ErrorKind::Interrupted => Ok(()),
        ErrorKind::WouldBlock => {
            thread::sleep(clock, Duration::from_millis(1));
            Ok(())
        }
        _ => Err(Failure {
            done,
            cause: Cause::System(error),
        }),
    }
}

// Reads until the space is full or the input ends, and gives how many bytes it put at the space's start.
pub fn read_all<R: Input + Clock>(rt: &R, space: &mut [u8]) -> Result<usize, Failure>
    ensures read { IfOk result (λ n. IsPrefixLen n space.new) }
    ensures failed { IfErr result (λ f. IsPrefixLen f.done space.new) }
{
    let mut input = rt.reader();
    let mut done: usize = 0;
    for _ in 0..TURNS {
        if done == space.len() {
            return Ok(done);
        }
        match input.read(&mut space[done..]) {
            Ok(0) => return Ok(done),
            Ok(n) => done += n,
            Err(error) => again(rt, error, done)?,
        }
    }
    Err(Failure {
        done,
        cause: Cause::NeverReady,
    })
}

// The same, but that a read which fails is an end: its callers go on with what was read before.
pub fn read_full<R: Input>(rt: &R, space: &mut [u8]) -> usize
    ensures { IsPrefixLen result space.new }
{
    let mut input = rt.reader();
    let mut done: usize = 0;
    // Kept: no index is counted; each reading says how much came.
    while done < space.len() {
        let n = input.read(&mut space[done..]).unwrap_or(0);
        if n == 0 {
            return done;
        }
        done += n;
    }
    done
}

// Writes all of a text.
pub fn write_all<R: Print + Clock>(rt: &R, text: &[u8]) -> Result<(), Failure>
    ensures { IfErr result (λ f. f.done ≤ length text.now) }
{
    let mut done: usize = 0;
    for _ in 0..TURNS {
        if done == text.len() {
            return Ok(());
        }
        match rt.write_some(&text[done..]) {
            Ok(n) => done += n,
            Err(error) => again(rt, error, done)?,
        }
    }
    if done == text.len() {
        return Ok(());
    }
    Err(Failure {
        done,
        cause: Cause::NeverReady,
    })
}
