// Runs the worked values and the outside vectors over the leaves, and writes what they answer; the
// gate holds it to the file `stdout`.
//
// The packets were sent by an X server (X.Org 21.1.7, Xvfb) to a client of each byte order, but for
// those of `made`, which tell fields apart that a server makes equal. The ids are those that the Rust
// answers, but where its 32 bits overflow (docs/DIFFERENCES.md).
#![tactic(auto)]

mod ids;
mod misc;

use std::io;

fn main(rt: HostRuntime) -> io::Result<()> {
    ids::of_masks(&rt)?;
    ids::of_ranges(&rt)?;
    misc::requests(&rt)?;
    misc::errors(&rt)?;
    misc::replies(&rt)?;
    misc::made(&rt)?;
    misc::refused(&rt)
}
