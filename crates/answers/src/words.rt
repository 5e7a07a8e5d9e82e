// The numbers that stand for kinds, modes, places and what stopped a call, and what they mean.
// They stay functions: a `From` of two types of other crates cannot stand in this one, and the crate
// of places and stops knows nothing of the numbers that C sees.
ghost use Rattle.std.specs.Prelude.{◌≡◌};
ghost use Rattle.model.specs.SaysBatch.{says_stop};
ghost use Rattle.model.specs.Feed.{says_halt};
ghost use Rattle.answers.specs.Shown.{place_number, stop_number, halt_number, mode_in, mode_number, kind_number};

use crate::code;
use model::{DiscardMode, Halt, Place, Stop};
use refusal::Refusal;
use requests::Mode;

// The largest number that means a kind.
pub const MOST_KIND: u8 = 2;

// What stops a row of sends at a byte that is no kind.
const NO_KIND: u32 = 255;

// What stops a row of packets where part of one is left.
const PART: u32 = 254;

// A number that means no mode is refused by 9.
#[tactic(auto, unfolding(crate::specs::Shown::mode_in, crate::specs::Shown::mode_of, crate::specs::Shown::is_mode, octets::specs::Logic::choose, octets::specs::Logic::either))]
pub fn discard_mode(number: u8) -> Result<DiscardMode, Refusal>
    ensures { result ≡ mode_in number }
{
    match number {
        1 => Ok(DiscardMode::DiscardReply),
        2 => Ok(DiscardMode::DiscardReplyAndError),
        _ => Err(Refusal::BadRoom),
    }
}

// Not the conversion of `requests`, whose numbers are those of its own bytes: what C is shown stays
// where these change.
pub fn mode_number(mode: Mode) -> u8
    ensures { result ≡ mode_number mode }
{
    match mode {
        Mode::Keep => 0,
        Mode::DiscardReply => 1,
        Mode::DiscardReplyAndError => 2,
    }
}

// 0 for a held reply, 1 for a held event.
#[tactic(auto, unfolding(crate::specs::Shown::kind_number, octets::specs::Logic::choose))]
pub fn kind_number(kind: u8) -> u8
    ensures { result ≡ kind_number kind }
{
    if kind == held::IN_EVENTS { 1 } else { 0 }
}

pub fn place_number(place: Place) -> u8
    ensures { result ≡ place_number place }
{
    place as u8
}

pub fn stop_number(stop: Stop) -> u32
    ensures { result ≡ stop_number (says_stop stop) }
{
    match stop {
        Stop::End => 0,
        Stop::Refused(refusal) => code(refusal),
        Stop::NoKind => NO_KIND,
    }
}

pub fn halt_number(halt: Halt) -> u32
    ensures { result ≡ halt_number (says_halt halt) }
{
    match halt {
        Halt::End => 0,
        Halt::Refused(refusal) => code(refusal),
        Halt::Part => PART,
    }
}
