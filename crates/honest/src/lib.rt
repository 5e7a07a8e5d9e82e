// Inside: a run with an honest server. No function, only theorems: however long a run is, and
// whatever calls it mixes, each numbered packet that is taken in is filed under its true number.
//
// To believe: `specs/Run.antt`, what a run of the model is and what is asked of the server's
// packets as they are logged; `specs/Server.antt`, the same asked of the packets that the server
// has to bring; `specs/Origins.antt`, how a held record is followed from its packet;
// `specs/Public.antt`, what a run of the public calls is. `proofs/Theorems.antt` says what follows,
// `specs/Needed.antt` that each premise is needed, and `proofs/Witness.antt` that there are such
// runs, of every kind and of any length.
//
// The other side of the same number is `specs/Span.antt`: with a request more before a sync it
// would not be so. To believe are its first part and, in `specs/Rules.antt`, what a run by the
// rules of sending and numbering alone is (`RuledBy`); `proofs/SpanWitness.antt` has the examples.
#![tactic(auto)]
