// Every sheet of the family, one right after the other, on standard output: the test desk's sheets. What can't be written, a line on standard error.
#![tactic(auto)]

mod choice;
mod family;

ghost use Rattle.std.specs.Prelude.{◌≡◌, [], ◌≤◌, ◌<◌, length, get_or};
ghost use Rattle.buffer.specs.Put.{over};
ghost use Rattle.small.specs.Listing.{sheets};

use std::time::Clock;
use stream::Failure;

// Sheet n at the space's beginning; gives its length. There is such a sheet and room for it, so it isn't refused.
fn next_sheet(n: usize, space: &mut [u8]) -> usize
    requires n_bound { n < 32736 }
    requires in_bounds { 72 ≤ length space.old }
    ensures value { (result ≡ length (get_or sheets n [])) × (result ≤ 72) }
    ensures space_after { space.new ≡ over (get_or sheets n []) space.old }
{
    family::write_sheet(n, space).unwrap()
}

// Sheet after sheet, each in room for the longest; ends where no more can be written.
fn write_sheets<R: Print + Clock>(rt: &R) -> Result<(), Failure> {
    let mut space = [0u8; 72];
    for n in 0..family::SHEETS {
        let size = next_sheet(n, &mut space);
        stream::write_all(rt, &space[..size])?;
    }
    Ok(())
}

fn main(rt: HostRuntime) {
    if let Err(failure) = write_sheets(&rt) {
        let _ = println!(rt.stderr();
            "small_sheets: the sheets are cut, their rest can't be written: {failure}"
        );
    }
}
