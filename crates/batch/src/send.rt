// Many requests are sent, one for each byte.
ghost use Rattle.std.specs.Prelude.{◌≡◌};
ghost use Rattle.batch.specs.Send.{SoundWithSome, SendsStep, answered};

use model::{Connection, ReplyFdKind, SentMany, Stop};
use refusal::Refusal;
use sequence::SequenceNumber;

// The bytes below this one mean a kind.
const KINDS: u8 = 3;

// Requests of the kinds are sent up to the first that is refused, or to a byte that is no kind.
pub fn send_requests(c: Connection, requests: &mut [u8], kinds: &[u8]) -> Result<SentMany, Refusal>
    requires { SoundWithSome c requests.old }
    ensures { SendsStep c kinds.now requests.old result requests.new }
{
    let mut state = c;
    for i in 0..kinds.len() {
        let byte = kinds[i];
        if KINDS <= byte {
            return sent(i, Stop::NoKind, state);
        }
        match sending::send_request(state, requests, ReplyFdKind::from(byte)) {
            Ok(sent) => {
                state = sent.connection;
            }
            Err(refusal) => {
                return sent(i, Stop::Refused(refusal), state);
            }
        }
    }
    sent(kinds.len(), Stop::End, state)
}

fn sent(count: usize, stop: Stop, state: Connection) -> Result<SentMany, Refusal>
    ensures { result ≡ answered count stop state }
{
    Ok(SentMany {
        count,
        last: SequenceNumber(state.written),
        stop,
        connection: state,
    })
}
