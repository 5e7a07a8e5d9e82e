// Inside: how things are written as bytes. No function, only definitions and their laws.
//
// A form says what can be written, how it is written, and what is read from the front of bytes. It is
// made of numbers, bytes, pairs and sections, a section being a count and so many items. To believe:
// `specs/Form.antt`. One law, `Exact` in `specs/FormLaws.antt`, holds of whatever is made of them;
// `specs/At.antt` is for code that tests a form where it stands.
#![tactic(auto)]
