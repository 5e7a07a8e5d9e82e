// The handshake: the server's reply in a buffer that the caller lends, and what the reply says
// (Core, Connection Setup).
//
// A client that has sent its setup request feeds the server's reply to a `Connect`, which keeps how
// many bytes of the buffer are filled and how many the reply will have, as far as the bytes so far
// tell: 8 at first, and once 8 are there the whole length. The caller puts bytes into the part that
// `buffer` lends and counts them by `advance`, which says when the reply is complete. Then `setup`
// reads it; `vendor` and `reason` show its texts where they stand in the buffer. Bytes past the
// filled ones mean nothing, and the buffer is never written here.
#![tactic(auto)]

mod handshake;
mod reply;

pub use handshake::{Advanced, Connect, HEAD, MOST_BUFFER};
pub use octets::Span;
pub use reply::{FIXED, Setup, SetupAnswer, SetupAuthenticate, SetupFailed};
