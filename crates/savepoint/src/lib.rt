// Inside: what a savepoint is (02, M-100). No function, only definitions and theorems: one client as
// bytes, and back.
//
// To believe: `specs/Saved.antt`, what is saved of a client, when that is sound, and the file;
// `specs/Calls.antt`, a client as it lies in its rooms, and what the three calls answer.
// `specs/Theorems.antt` says what is then certain, `docs/SAVEPOINT.md` has the file in words.
#![tactic(auto)]
