// Inside: a run of the exports is a session. No function, only theorems: what is certain of sessions
// is certain for whoever calls the static library from C or Rust.
//
// To believe: `specs/Run.antt`, what a run of the exports is, in rows, rooms and numbers that come
// back, and `xiengmado/specs/Exports.antt`, the promise of each export. `proofs/Theorems.antt` says
// that such a run is a session, and what is then certain in the exports' own terms.
#![tactic(auto)]
