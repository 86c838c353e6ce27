// How the programs print numbers.
#![tactic(auto)]

ghost use Rattle.std.specs.Prelude.{◌<◌};

use std::io;

// The numbers of a line, with a tab between and a line's end after the last.
fn put_row(rt: &impl Print, numbers: &[u64]) -> io::Result<()> {
    for (i, number) in numbers.iter().enumerate() {
        if i > 0 {
            rt.print("\t")?;
        }
        rt.print(number)?;
    }
    rt.print("\n")
}

// The numbers, `width` to a line; the last line has what is left.
pub fn put_rows(rt: &impl Print, numbers: &[u64], width: usize) -> io::Result<()>
    requires { 0 < width }
{
    for row in numbers.chunks(width) {
        put_row(rt, row)?;
    }
    Ok(())
}
