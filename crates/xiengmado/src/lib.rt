// The engine as a static library: its public calls, for C and whoever can call C. Left out are
// `unfilled`, whose numbers the two `buffer` calls give, `front`, which is inside, a refusal's
// `number`, and the calls that are lent an id allocator. The symbols themselves are in
// `xiengmado_c`, which exports each function of this crate under its name and its promise. The rooms
// are parameters each, as they are in C, and not a struct.
//
// Every function is `xm_` and the name of the call below it. It answers `Ok(())`, or a refusal, and
// then the state, every lent room and every number behind a pointer are as they were; C sees 0, or the
// number of the refusal, by `answers::returned`, of which the contract here speaks. State is a
// row of 64-bit numbers that the caller lends and may have spoilt: numbers that are no state, or too
// many or too few of them, are read as a state that is not sound, so the call refuses them by 9.
// Values come back through pointers; a part of a buffer as its start and its size. What `kind` and
// `mode` cannot mean is refused by 9 too. Nothing is decided here: a contract says that an export
// does what the promise of the call below it says (`specs/Exports`, over `answers/specs/Exported`).
#![tactic(auto)]

pub mod client;
pub mod handshake;
pub mod ids;
pub mod many;
pub mod misc;
pub mod numbers;
pub mod packets;
pub mod reader;
pub mod rooms;
pub mod savepoints;
pub mod version;
