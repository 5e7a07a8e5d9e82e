// Runs scripts of calls, one a line, and writes an answer a line: how a run is put beside another
// run, of the Rust, of a restored client, of last week's build.
//
// The language is in docs/REPLAY.md. Scripts may be of any length; memory stays as it is.
#![tactic(auto)]

mod checks;
mod run;

ghost use Rattle.std.specs.Prelude.{◌≡◌, length};

use calls::Rooms;
use checks::Ends;
use run::State;
use script::{Input, Line};
use std::io;
use text::Page;

// The packet store; and the packets handed out, the buffers of reader and handshake, a savepoint, the
// input, and the text that is not written yet.
const STORE: usize = 4194304;

const BYTES: usize = 3277828;

// The room of the outstanding requests.
const REQUESTS: usize = 65536;

// Descriptors inside at most.
const SLOTS: usize = 256;

fn main(rt: HostRuntime) {
    let mut space = [0u8; STORE];
    let store: &mut [u8] = &mut space;
    with_bytes(&rt, store);
}

fn with_bytes(rt: &HostRuntime, store: &mut [u8]) {
    let mut space = zeros();
    let bytes: &mut [u8] = &mut space;
    with_rooms(rt, store, bytes);
}

// By a call, so that no proof counts them.
fn zeros() -> [u8; BYTES]
    ensures { 3277828 ≡ length result }
{
    [0; BYTES]
}

fn with_rooms(rt: &HostRuntime, store: &mut [u8], bytes: &mut [u8]) {
    let mut requests = [0u8; REQUESTS];
    let mut slots = [0u32; SLOTS];
    let mut rooms = Rooms {
        requests: &mut requests,
        store,
        slots: &mut slots,
    };
    let mut page = Page::new(rt, bytes);
    if let Ok(state) = run::fresh(&rooms) {
        lines(rt, state, &mut rooms, &mut page);
    }
}

// The whole input. A proved loop has to end, so it counts turns up to a number that no run comes to.
fn lines(rt: &HostRuntime, fresh: State, rooms: &mut Rooms<'_>, page: &mut Page<'_, HostRuntime>) {
    let mut state = fresh;
    let mut input = script::start();
    for _ in 0..u64::MAX {
        match next(rt, &state, &mut input, page) {
            Ok(Some(line)) => run::line(&mut state, line, input.lines, rooms, page),
            Ok(None) => {
                finish(rt, &state, input.lines, page);
                return;
            }
            // A run that was cut short has no last line.
            Err(_) => {
                text::complain(rt, b"replay: the input could not be read\n");
                return;
            }
        }
    }
}

// The next line, if the run goes on. Behind a write that failed nothing is run.
fn next(
    rt: &HostRuntime,
    state: &State,
    input: &mut Input,
    page: &mut Page<'_, HostRuntime>,
) -> io::Result<Option<Line>> {
    if state.checks.ends == Ends::Now {
        return Ok(None);
    }
    let line = script::next(&mut rt.stdin(), input, page)?;
    Ok(if page.failed { None } else { line })
}

fn finish(rt: &HostRuntime, state: &State, lines: u64, page: &mut Page<'_, HostRuntime>) {
    end(state, lines, page);
    if page.failed {
        text::complain(rt, b"replay: the output could not be written\n");
    }
}

// The last line of the output, and everything is written.
fn end(state: &State, lines: u64, page: &mut Page<'_, impl Print>) {
    page.counted(b"end ", lines);
    page.counted(b" ", state.ops);
    checks::total(state.checks, page);
    page.word(b"\n");
    page.flush();
}
