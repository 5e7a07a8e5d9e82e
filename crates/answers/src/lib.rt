// Inside: what a call answers, as an export hands it back: values through lent numbers, a state into
// its row, and 0 or the number of the refusal.
//
// Each `give_` passes a refusal on and leaves the row and every lent number as they were
// (`specs/Exported`); `returned` turns what is left, done or refused, into the number that C sees.
// Which numbers are shown of an answer, and what stands for what, is in `specs/Shown`.
#![tactic(auto)]

ghost use Rattle.std.specs.Prelude.{◌≡◌, cond};
ghost use Rattle.refusal.specs.Numbers.{number_of};
ghost use Rattle.answers.specs.Exported.{returned_of};

use refusal::Refusal;

mod fields;
mod many;
mod one;
mod words;

pub use fields::give_setup;
pub use many::{give_events, give_fed, give_sent_many};
pub use one::{
    give_closed, give_enqueued, give_event, give_next, give_poll, give_polled, give_sent,
};
pub use words::{MOST_KIND, discard_mode, kind_number, mode_number};

// 1 for true.
pub fn bit(b: bool) -> u8
    ensures { result ≡ cond b 1 0 }
{
    b as u8
}

pub fn code(refusal: Refusal) -> u32
    ensures { result ≡ number_of refusal }
{
    refusal.number() as u32
}

// What an export answers: 0 where it refuses nothing.
pub fn returned(answer: Result<(), Refusal>) -> u32
    ensures { result ≡ returned_of answer }
{
    match answer {
        Ok(()) => 0,
        Err(refusal) => code(refusal),
    }
}
