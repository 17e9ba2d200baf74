//! Worked examples of the definitions of lk_model, checked by evaluation: objects, links, whole images byte by byte,
//! records, updates and answers, each beside the value that it must have.
//!
//! The crate has no code and nothing depends on it, so that no other crate waits for its evaluation. An example is a
//! lemma by `refl` in proofs/: a definition that is changed so that an example has another value is refused here.
//! `Computed`, `RecordsComputed` and `UpdateComputed` open the definitions, so that an example cites one word. The
//! values come from the gABI, the psABI and from outside readings, never from the definitions themselves.
#![tactic(auto)]
