// Standard input, a line at a time. In the run of bytes it stands before the text. A line ends before
// a newline or at the end of the input, and a carriage return there is no part of it.
use std::io;
use std::io::Read;
use text::{Page, Span};

// Where the input begins in the run of bytes.
pub const INPUT: usize = 1179652;

// How far a run has come.
#[derive(Clone, Copy)]
pub struct Input {
    // The line begins at the first index, and is looked through from the second on.
    from: usize,
    next: usize,
    // Up to here there is input.
    filled: usize,
    // How many lines were found.
    pub lines: u64,
}

// A line: where it stands; or that it is too long to be kept, and whether it is a remark then.
#[derive(Clone, Copy)]
pub enum Line {
    Kept(Span),
    Long,
    Remark,
}

pub fn start() -> Input {
    Input {
        from: INPUT,
        next: INPUT,
        filled: INPUT,
        lines: 0,
    }
}

// The next line, if there is one. A proved loop has to end, so it counts turns up to a number that
// no run comes to.
pub fn next(
    reader: &mut impl Read,
    input: &mut Input,
    page: &mut Page<'_, impl Print>,
) -> io::Result<Option<Line>> {
    input.from = input.next;
    let mut lost = None;
    for _ in 0..u64::MAX {
        if let Some(n) = newline(input, page.run) {
            return Ok(Some(found(input, lost, n, 1, page.run)));
        }
        lost = lost.or(room(input, page.run));
        let n = more(reader, input.filled, page)?;
        if n == 0 {
            break;
        }
        input.filled = input.filled.saturating_add(n);
    }
    Ok(last(input, lost, page.run))
}

// How many bytes from where the line is looked through stand before its newline, if that is there.
fn newline(input: &Input, bytes: &[u8]) -> Option<usize> {
    let rest = text::cut(bytes, input.next, input.filled);
    rest.iter().position(|c| *c == b'\n')
}

// The line ends so many bytes on, and the next begins behind its newline, if it has one. lost is what
// it is if it can't be kept.
fn found(input: &mut Input, lost: Option<Line>, more: usize, newline: usize, bytes: &[u8]) -> Line {
    let end = input.next.saturating_add(more);
    input.next = end.saturating_add(newline);
    input.lines = input.lines.saturating_add(1);
    let line = Span {
        from: input.from,
        end,
    };
    lost.unwrap_or(Line::Kept(trimmed(line, bytes)))
}

// The input ends: what is left is a line, if there is something.
fn last(input: &mut Input, lost: Option<Line>, bytes: &[u8]) -> Option<Line> {
    if input.filled <= input.from && lost.is_none() {
        return None;
    }
    let more = input.filled.saturating_sub(input.next);
    Some(found(input, lost, more, 0, bytes))
}

// Without a carriage return at its end.
fn trimmed(line: Span, bytes: &[u8]) -> Span {
    match line.of(bytes) {
        [kept @ .., b'\r'] => line.take(kept.len()),
        _ => line,
    }
}

// Room for more input: where there is none, the line that has begun goes to the start, or goes if it
// is there already. What goes comes back.
fn room(input: &mut Input, bytes: &mut [u8]) -> Option<Line> {
    input.next = input.filled;
    if input.filled < text::START {
        return None;
    }
    if INPUT < input.from {
        let n = slid(input.from, input.filled, bytes);
        begin(input, n);
        return None;
    }
    begin(input, 0);
    Some(lost(bytes))
}

// So many bytes of a line stand at the start.
fn begin(input: &mut Input, n: usize) {
    input.from = INPUT;
    input.filled = INPUT.saturating_add(n);
    input.next = input.filled;
}

// How many bytes there are from one index to another, which go to the start.
fn slid(from: usize, end: usize, bytes: &mut [u8]) -> usize {
    if bytes.len() < end || end < from || from < INPUT {
        return 0;
    }
    octets::slide(bytes, from, INPUT, end - from);
    end - from
}

// What a line is that begins at the start and can't be kept.
fn lost(bytes: &[u8]) -> Line {
    match bytes.get(INPUT) {
        Some(b'#') => Line::Remark,
        _ => Line::Long,
    }
}

// How many bytes a read puts behind the input that is there; 0 at its end. Before it all answers are
// written, so that whoever gives one line at a time has them; a file is read in large pieces. Where
// they can't be written there is no more input.
fn more(
    reader: &mut impl Read,
    filled: usize,
    page: &mut Page<'_, impl Print>,
) -> io::Result<usize> {
    page.flush();
    if page.failed {
        return Ok(0);
    }
    match page.run.get_mut(filled..text::START) {
        Some(part) => reader.read(part),
        None => Ok(0),
    }
}
