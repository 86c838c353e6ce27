// The program once more, for the gate: on an input that cannot be read, of which no report may come, then on a month of several days.
#![tactic(auto)]

use std::{fs, io};

// A folder can be opened and not read.
const FOLDER: &str = ".";

fn main(rt: HostRuntime) -> io::Result<()> {
    program::run(&rt, &mut fs::open(&rt, FOLDER)?);
    program::run(&rt, &mut rt.stdin());
    Ok(())
}
