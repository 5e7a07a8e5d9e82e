// Says what packets a stream has: little-endian server bytes after the setup on standard input.
//
// The program reads, asks `listing` for text, and writes it. What the text is, and when bytes or
// room are wanted, is decided there.
#![tactic(auto)]

ghost use Rattle.std.specs.Prelude.{◌≤◌, length};

use listing::{Stage, Wants};
use std::io;
use std::io::Read;

// The buffer has twice the bytes of the longest packet: where bytes are wanted less than one packet
// is held, so there is room behind it.
fn main(rt: HostRuntime) -> io::Result<()> {
    let mut buf = [0u8; 131072];
    let mut out = [0u8; 65536];
    run(&rt, &mut rt.stdin(), &mut buf, &mut out)
}

// More bytes behind those held; how many are held then. None come where the input can't be read.
fn more(input: &mut impl Read, buf: &mut [u8], held: usize) -> usize
    requires { held ≤ length buf.old }
    ensures { (held ≤ result) × (result ≤ length buf.new) }
{
    match input.read(&mut buf[held..]) {
        Ok(n) => held + n,
        Err(_) => held,
    }
}

// A proved loop has to end, so it has so many turns that no run uses them up.
fn run(rt: &impl Print, input: &mut impl Read, buf: &mut [u8], out: &mut [u8]) -> io::Result<()> {
    let mut place = Stage::Start;
    let mut held = 0;
    let mut over = false;
    for _ in 0..u64::MAX {
        let turn = listing::list(place, buf, held, over, out);
        rt.write_all(&out[..turn.written])?;
        place = turn.place;
        held = turn.held;
        match turn.wants {
            Wants::Bytes => {
                let filled = more(input, buf, held);
                over = filled == held;
                held = filled;
            }
            Wants::Room => {}
            Wants::Nothing => return Ok(()),
        }
    }
    Ok(())
}
