// What the calls that make many steps answer, handed back as an export does.
ghost use Rattle.std.specs.Prelude.{◌≡◌, [], ◌∷◌};
ghost use Rattle.model.specs.SaysBatch.{says_sent_many, says_events};
ghost use Rattle.model.specs.Feed.{says_fed};
ghost use Rattle.answers.specs.Exported.{Kept, returned_of};
ghost use Rattle.answers.specs.Shown.{state_row, sendings, fed, handings};

use crate::words::{halt_number, stop_number};
use model::{Events, Fed, SentMany};
use refusal::Refusal;

pub fn give_sent_many(
    answer: Result<SentMany, Refusal>,
    row: &mut [u64],
    count: &mut usize,
    number: &mut u64,
    stop: &mut u32,
) -> Result<(), Refusal>
    ensures { Kept (λ a. a ≡ says_sent_many answer) sendings (state_row row.old) (count.old ∷ number.old ∷ stop.old ∷ []) (count.new ∷ number.new ∷ stop.new ∷ []) row.old row.new (returned_of result) }
{
    let sent = answer?;
    rows::put_connection(row, sent.connection);
    *count = sent.count;
    *number = sent.last.0;
    *stop = stop_number(sent.stop);
    Ok(())
}

pub fn give_fed(
    answer: Result<Fed, Refusal>,
    row: &mut [u64],
    size: &mut usize,
    count: &mut usize,
    stop: &mut u32,
) -> Result<(), Refusal>
    ensures { Kept (λ a. a ≡ says_fed answer) fed (state_row row.old) (size.old ∷ count.old ∷ stop.old ∷ []) (size.new ∷ count.new ∷ stop.new ∷ []) row.old row.new (returned_of result) }
{
    let fed = answer?;
    rows::put_connection(row, fed.connection);
    *size = fed.bytes;
    *count = fed.packets;
    *stop = halt_number(fed.halt);
    Ok(())
}

pub fn give_events(
    answer: Result<Events, Refusal>,
    row: &mut [u64],
    count: &mut usize,
    size: &mut usize,
    stop: &mut u32,
) -> Result<(), Refusal>
    ensures { Kept (λ a. a ≡ says_events answer) handings (state_row row.old) (count.old ∷ size.old ∷ stop.old ∷ []) (count.new ∷ size.new ∷ stop.new ∷ []) row.old row.new (returned_of result) }
{
    let events = answer?;
    rows::put_connection(row, events.connection);
    *count = events.count;
    *size = events.bytes;
    *stop = stop_number(events.stop);
    Ok(())
}
