// Parts of the run of bytes that `replay` works on.

ghost use Rattle.std.specs.Prelude.{◌≡◌, ◌+◌, ◌-◌, ◌≤◌, length, take, drop};

// The bytes from one index to another. Not `octets::Span`, which public calls answer: the methods here
// would have to stand there.
#[derive(Clone, Copy)]
pub struct Span {
    pub from: usize,
    pub end: usize,
}

impl Span {
    pub const EMPTY: Span = Span { from: 0, end: 0 };

    // So many bytes from an index on.
    pub fn at(from: usize, len: usize) -> Span
        ensures from { result.from ≡ from }
        ensures end { from + len ≤ usize.MAX → result.end ≡ from + len }
    {
        Span {
            from,
            end: from.saturating_add(len),
        }
    }

    pub fn length(self) -> usize
        ensures { result ≡ self.end - self.from }
    {
        self.end.saturating_sub(self.from)
    }

    // Its bytes, or none where they aren't there.
    pub fn of<'a>(self, run: &'a [u8]) -> &'a [u8]
        ensures { self.from ≤ self.end → self.end ≤ length run.now → result.now ≡ take (self.end - self.from) (drop self.from run.now) }
    {
        cut(run, self.from, self.end)
    }

    // Its first bytes, so many, or all.
    pub fn take(self, n: usize) -> Span
        ensures from { result.from ≡ self.from }
        ensures end { result.end ≤ self.end }
        ensures most { result.end - result.from ≤ n }
    {
        Span {
            from: self.from,
            end: self.from.saturating_add(n).min(self.end),
        }
    }
}

// The bytes from one index to another, or none where they aren't there.
pub fn cut<'a>(run: &'a [u8], from: usize, end: usize) -> &'a [u8]
    ensures { from ≤ end → end ≤ length run.now → result.now ≡ take (end - from) (drop from run.now) }
{
    run.get(from..end).unwrap_or(&[])
}
