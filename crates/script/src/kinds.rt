// Kinds of requests, as `send` has one and `sendall` a row.
use super::Unread;
use super::words::BLANK;
use model::ReplyFdKind;
use text::Span;

// The kind that a word names.
pub(crate) fn of(word: &[u8]) -> Option<ReplyFdKind> {
    match word {
        b"none" => Some(ReplyFdKind::NoReply),
        b"reply" => Some(ReplyFdKind::ReplyWithoutFds),
        b"fds" => Some(ReplyFdKind::ReplyWithFds),
        _ => None,
    }
}

// A row, which may be empty: the numbers of its kinds go to its start, a byte each. Where it can't be
// read some may be gone.
pub(crate) fn read(input: &mut [u8], rest: Option<Span>) -> Result<Span, Unread> {
    let Some(row) = rest else {
        return Ok(Span::EMPTY);
    };
    let Some(part) = input.get_mut(row.from..row.end) else {
        return Err(Unread::Word(2));
    };
    Ok(row.take(numbers(part)?))
}

// How many there are. Each word ends before a blank or at the end. Indices are counted, since an
// iterator over the words would lend the bytes that the numbers are written to.
fn numbers(part: &mut [u8]) -> Result<usize, Unread> {
    let mut start = 0;
    let mut count: usize = 0;
    for end in 0..=part.len() {
        if part.get(end).is_some_and(|c| *c != BLANK) {
            continue;
        }
        let word = text::cut(part, start, end);
        let kind = of(word).ok_or(Unread::Word((count as u64).saturating_add(2)))?;
        if let Some(place) = part.get_mut(count) {
            *place = kind as u8;
            count += 1;
        }
        start = end.saturating_add(1);
    }
    Ok(count)
}
