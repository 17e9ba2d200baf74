//! The tokens by which tasks wait for one another: blockers, which are counted, and locks, which have one holder.
//!
//! How many blockers and how many locks there are comes in, then calls on each by its number; out come the answers
//! whether a blocker is open and whether a lock was free. The contracts say of each call what it changes of the
//! counts and of the locks (`TokenState` in specs/TokenStates.antt), and nothing else changes. Callers rely on one
//! law: a lock that is locked is not given again before it is unlocked. Once `Tokens::new` has made them, no call
//! takes memory.
#![tactic(auto)]

mod tokens;

pub use tokens::Tokens;
