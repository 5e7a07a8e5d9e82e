// Inside: a session, a run of the public calls with an honest server. No function, only theorems.
//
// To believe: `specs/Ask.antt`, every public call with the promise that its answer keeps,
// `specs/Session.antt`, what a session is, `specs/Noting.antt`, what a run of bytes adds to its log,
// `specs/Serving.antt`, a session with a server that has packets of its own to bring, and what is
// to be shown of it; `honest/specs/Run.antt`, `Server.antt` and `Origins.antt`, what is asked of the
// server and how a held record is followed. `proofs/Theorems.antt` and `proofs/Served.antt` say what
// is then certain, `proofs/Witness.antt` that there is such a session, and `specs/Engines.antt` which
// engines the promises of the calls shut out.
#![tactic(auto)]
