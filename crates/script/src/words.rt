// The words of a line: single blanks part them.
ghost use Rattle.std.specs.Prelude.{◌≡◌, ◌≤◌, length};

use super::Unread;
use text::Span;

pub(crate) const BLANK: u8 = b' ';

// The first word of a line.
pub fn name(line: Span, input: &[u8]) -> Span
    ensures from { result.from ≡ line.from }
    ensures end { result.end ≤ line.end }
{
    line.take(length(line.of(input)))
}

// How long the first word is.
pub(crate) fn length(words: &[u8]) -> usize
    ensures { result ≤ length words.now }
{
    words
        .iter()
        .position(|c| *c == BLANK)
        .unwrap_or(words.len())
}

// What stands behind the first word, if it isn't alone.
pub(crate) fn rest(line: Span, word: Span) -> Option<Span> {
    if line.end <= word.end {
        return None;
    }
    Some(Span {
        from: word.end + 1,
        end: line.end,
    })
}

// Where something has to stand behind the name: a missing word counts as the one that it would be.
pub(crate) fn some(rest: Option<Span>) -> Result<Span, Unread> {
    rest.ok_or(Unread::Word(2))
}

// What a name says that has to be alone.
pub(crate) fn alone<T: Copy>(rest: Option<Span>, said: T) -> Result<T, Unread> {
    match rest {
        None => Ok(said),
        Some(_) => Err(Unread::Word(2)),
    }
}

// What a name says that has to have a word behind it, and nothing behind that.
pub(crate) fn fixed<T: Copy>(word: &[u8], rest: &[u8], said: T) -> Result<T, Unread> {
    let mut words = rest.split(|c| *c == BLANK);
    if words.next() != Some(word) {
        return Err(Unread::Word(2));
    }
    no_more(words.next(), 3)?;
    Ok(said)
}

// No word is left: where there is one it is one too many, and that is its number.
pub(crate) fn no_more(word: Option<&[u8]>, number: u64) -> Result<(), Unread> {
    match word {
        None => Ok(()),
        Some(_) => Err(Unread::Word(number)),
    }
}
