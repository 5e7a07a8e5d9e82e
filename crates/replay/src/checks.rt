// `expect` and `stop`: answers beside what a script expects of them.
use text::{Page, Span};

// The longest answer that is compared: `text` keeps one of this length in one piece.
const LONGEST: usize = 262144;

// How many answers were expected, how many of those differ, and whether that ends the run.
#[derive(Clone, Copy)]
pub(crate) struct Checks {
    pub(crate) expected: u64,
    pub(crate) differ: u64,
    pub(crate) ends: Ends,
}

// Whether an answer that differs ends the run: none does, the next does, or one has.
#[derive(Clone, Copy, PartialEq, Eq)]
pub(crate) enum Ends {
    Never,
    AtNext,
    Now,
}

#[derive(Clone, Copy, PartialEq, Eq)]
pub(crate) enum Verdict {
    Same,
    Differs,
    Long,
}

pub(crate) fn fresh() -> Checks {
    Checks {
        expected: 0,
        differ: 0,
        ends: Ends::Never,
    }
}

// The last answer beside the bytes of a line. No answer is empty, so an empty one is none.
pub(crate) fn judge(wanted: Span, page: &Page<'_, impl Print>) -> Verdict {
    match page.answer() {
        None => Verdict::Long,
        Some(answer) => compared(answer, wanted.of(page.run)),
    }
}

fn compared(answer: &[u8], wanted: &[u8]) -> Verdict {
    if LONGEST < answer.len() {
        return Verdict::Long;
    }
    if !answer.is_empty() && answer == wanted {
        return Verdict::Same;
    }
    Verdict::Differs
}

pub(crate) fn count(checks: &mut Checks, verdict: Verdict) {
    checks.expected = checks.expected.saturating_add(1);
    if verdict == Verdict::Same {
        return;
    }
    checks.differ = checks.differ.saturating_add(1);
    if checks.ends == Ends::AtNext {
        checks.ends = Ends::Now;
    }
}

// The verdict on the line of a number.
pub(crate) fn write(verdict: Verdict, number: u64, page: &mut Page<'_, impl Print>) {
    page.verdict();
    match verdict {
        Verdict::Same => page.word(b"expect ok"),
        Verdict::Differs => page.counted(b"expect differs at line ", number),
        Verdict::Long => page.counted(b"expect long at line ", number),
    }
    page.word(b"\n");
}

// What came of all that was expected, if something was.
pub(crate) fn total(checks: Checks, page: &mut Page<'_, impl Print>) {
    if checks.expected != 0 {
        page.counted(b" expected ", checks.expected);
        page.counted(b" differ ", checks.differ);
    }
}
