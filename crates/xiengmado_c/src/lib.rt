// The static library, for C and whoever can call C: each export is the function of `xiengmado` of
// the same name, with its arguments, its contract, and its answer as a number: 0, or that of the
// refusal. Nothing is decided here; what a call does and what it refuses is said there, and in
// include/xiengmado.h.
//
// The functions stay 46 in each crate: a static library exports symbols and no crate stands on it,
// while `exports` stands on `xiengmado`.
#![tactic(auto)]

mod client;
mod handshake;
mod ids;
mod many;
mod misc;
mod numbers;
mod packets;
mod reader;
mod rooms;
mod savepoints;
mod version;
