// Inside: what whole calls come to. No function, only theorems: over each call, and over runs and
// sessions of them, every descriptor that was accepted is in one place, room is refused exactly
// where it is short, a promise allows one outcome, and what is read as state decides it.
//
// To believe: `session/specs/Ask.antt`, every public call with the promise that its answer keeps;
// `specs/Descriptors.antt`, what is inside, what a call accepts and what it hands out;
// `specs/Room.antt`, when a call lacks room; `specs/Sends.antt`, rows of sends; `specs/State.antt`,
// outcomes as they are read and rows of calls; `model/specs/Encoding.antt`, when state and rooms
// encode a state and when two are alike. `proofs/Theorems.antt` says what is then certain, statements
// alone, of every public call in one sentence.
#![tactic(auto)]
