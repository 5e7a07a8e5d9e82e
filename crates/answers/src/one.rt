// What the calls of a connection answer, handed back as an export does: the state into its row,
// which but for a new one is the row that it was read from, the values through their pointers, and
// the refusal as it came.
ghost use Rattle.std.specs.Prelude.{◌≡◌, [], ◌∷◌};
ghost use Rattle.model.specs.Says.{says_next, says_sent, says_enqueued, says_polled, says_poll_reply, says_closed};
ghost use Rattle.answers.specs.Exported.{Kept, returned_of};
ghost use Rattle.answers.specs.Shown.{nothing, state_row, kept_in, sent_in, first, filing, polled, poll, event};

use crate::words::place_number;
use model::{Closed, Connection, Enqueued, PollReply, Polled, Sent};
use refusal::Refusal;

pub fn give_next(answer: Result<Connection, Refusal>, row: &mut [u64]) -> Result<(), Refusal>
    ensures { Kept (λ a. a ≡ says_next answer) nothing (state_row row.old) [] [] row.old row.new (returned_of result) }
{
    rows::put_connection(row, answer?);
    Ok(())
}

// Into the row that the state was read from.
pub fn give_sent(
    answer: Result<Sent, Refusal>,
    row: &mut [u64],
    number: &mut u64,
) -> Result<(), Refusal>
    ensures { Kept (λ a. a ≡ says_sent answer) first (sent_in row.old) (number.old ∷ []) (number.new ∷ []) row.old row.new (returned_of result) }
{
    let sent = answer?;
    rows::put_sent(row, sent.connection);
    *number = sent.number.0;
    Ok(())
}

pub fn give_enqueued(
    answer: Result<Enqueued, Refusal>,
    row: &mut [u64],
    place: &mut u8,
    number: &mut u64,
    class: &mut u8,
) -> Result<(), Refusal>
    ensures { Kept (λ a. a ≡ says_enqueued answer) filing (kept_in row.old) (place.old ∷ number.old ∷ class.old ∷ []) (place.new ∷ number.new ∷ class.new ∷ []) row.old row.new (returned_of result) }
{
    let filed = answer?;
    rows::put_kept(row, filed.connection);
    *place = place_number(filed.place);
    *number = filed.number.0;
    *class = u8::from(filed.class);
    Ok(())
}

pub fn give_polled(
    answer: Result<Polled, Refusal>,
    row: &mut [u64],
    found: &mut u8,
    size: &mut usize,
    count: &mut usize,
    class: &mut u8,
) -> Result<(), Refusal>
    ensures { Kept (λ a. a ≡ says_polled answer) polled (kept_in row.old) (found.old ∷ size.old ∷ count.old ∷ class.old ∷ []) (found.new ∷ size.new ∷ count.new ∷ class.new ∷ []) row.old row.new (returned_of result) }
{
    let polled = answer?;
    rows::put_kept(row, polled.connection);
    match polled.packet {
        Some(handed) => {
            *found = 1;
            *size = handed.length;
            *count = handed.descriptors;
            *class = u8::from(handed.class);
        }
        None => {
            *found = 0;
            *size = 0;
            *count = 0;
            *class = 0;
        }
    }
    Ok(())
}

pub fn give_poll(
    answer: Result<PollReply, Refusal>,
    row: &mut [u64],
    res: &mut u8,
    size: &mut usize,
    class: &mut u8,
) -> Result<(), Refusal>
    ensures { Kept (λ a. a ≡ says_poll_reply answer) poll (kept_in row.old) (res.old ∷ size.old ∷ class.old ∷ []) (res.new ∷ size.new ∷ class.new ∷ []) row.old row.new (returned_of result) }
{
    match answer? {
        PollReply::TryAgain(next) => {
            rows::put_kept(row, next);
            *res = 0;
            *size = 0;
            *class = 0;
            Ok(())
        }
        PollReply::NoReply(next) => {
            rows::put_kept(row, next);
            *res = 1;
            *size = 0;
            *class = 0;
            Ok(())
        }
        PollReply::Reply(handed, next) => {
            rows::put_kept(row, next);
            *res = 2;
            *size = handed.length;
            *class = u8::from(handed.class);
            Ok(())
        }
    }
}

pub fn give_event(
    answer: Result<Polled, Refusal>,
    row: &mut [u64],
    found: &mut u8,
    number: &mut u64,
    size: &mut usize,
    class: &mut u8,
) -> Result<(), Refusal>
    ensures { Kept (λ a. a ≡ says_polled answer) event (kept_in row.old) (found.old ∷ number.old ∷ size.old ∷ class.old ∷ []) (found.new ∷ number.new ∷ size.new ∷ class.new ∷ []) row.old row.new (returned_of result) }
{
    let polled = answer?;
    rows::put_kept(row, polled.connection);
    match polled.packet {
        Some(handed) => {
            *found = 1;
            *number = handed.number.0;
            *size = handed.length;
            *class = u8::from(handed.class);
        }
        None => {
            *found = 0;
            *number = 0;
            *size = 0;
            *class = 0;
        }
    }
    Ok(())
}

pub fn give_closed(
    answer: Result<Closed, Refusal>,
    row: &mut [u64],
    count: &mut usize,
) -> Result<(), Refusal>
    ensures { Kept (λ a. a ≡ says_closed answer) first (state_row row.old) (count.old ∷ []) (count.new ∷ []) row.old row.new (returned_of result) }
{
    let closed = answer?;
    rows::put_connection(row, closed.connection);
    *count = closed.count;
    Ok(())
}
