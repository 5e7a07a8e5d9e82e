// Moves within the run of bytes.
use text::Span;

// Bytes of it, put to an index, where both runs are there.
pub(crate) fn put(run: &mut [u8], bytes: Span, to: usize) {
    let n = bytes.length();
    if run.len() < n || run.len() - n < bytes.from || run.len() - n < to {
        return;
    }
    octets::slide(run, bytes.from, to, n);
}
