// What a handshake answers of a whole reply, handed back as an export does: the fields of a setup in
// seventeen lent numbers.
ghost use Rattle.std.specs.Prelude.{◌≡◌, [], ◌∷◌, ◌≤◌, length};
ghost use Rattle.connect.specs.Setup.{says_setup};
ghost use Rattle.answers.specs.Exported.{Kept, returned_of};
ghost use Rattle.answers.specs.Shown.{setup_places, setup_roomed, status_of, setup_fields, success_row, failed_row};

use connect::{Setup, SetupAnswer, SetupFailed};
use refusal::Refusal;
use rows::put_four;

// How many fields a setup has.
const FIELDS: usize = 17;

pub fn give_setup(
    answer: Result<SetupAnswer, Refusal>,
    status: &mut u8,
    fields: &mut [u32],
) -> Result<(), Refusal>
    ensures { Kept (λ a. a ≡ setup_roomed (length fields.old) (says_setup answer)) status_of (setup_fields fields.old) (status.old ∷ []) (status.new ∷ []) fields.old fields.new (returned_of result) }
{
    let reading = answer?;
    if fields.len() < FIELDS {
        return Err(Refusal::OutShort);
    }
    match reading {
        SetupAnswer::Success(setup) => {
            put_success(fields, setup);
            *status = 1;
            Ok(())
        }
        SetupAnswer::Failed(failed) => {
            put_failed(fields, failed);
            *status = 0;
            Ok(())
        }
        SetupAnswer::Authenticate(more) => {
            fields[2] = more.length as u32;
            *status = 2;
            Ok(())
        }
    }
}

// All seventeen, in their order.
#[tactic(auto, unfolding(crate::specs::Shown::success_row))]
fn put_success(fields: &mut [u32], setup: Setup)
    requires { setup_places ≤ length fields.old }
    ensures { fields.new ≡ success_row fields.old setup }
{
    let (major, minor, length) = (setup.major as u32, setup.minor as u32, setup.length as u32);
    let (vendor, request) = (setup.vendor as u32, setup.request as u32);
    let (roots, formats, image) = (setup.roots as u32, setup.formats as u32, setup.image as u32);
    let (bitmap, unit, pad) = (setup.bitmap as u32, setup.unit as u32, setup.pad as u32);
    put_four(fields, 0, major, minor, length, setup.release);
    put_four(fields, 4, setup.base, setup.mask, setup.motion, vendor);
    put_four(fields, 8, request, roots, formats, image);
    put_four(fields, 12, bitmap, unit, pad, setup.first as u32);
    fields[16] = setup.last as u32;
}

// The first four: the version, the length and that of the reason.
fn put_failed(fields: &mut [u32], failed: SetupFailed)
    requires { setup_places ≤ length fields.old }
    ensures { fields.new ≡ failed_row fields.old failed }
{
    let (major, minor) = (failed.major as u32, failed.minor as u32);
    put_four(
        fields,
        0,
        major,
        minor,
        failed.length as u32,
        failed.reason as u32,
    );
}
