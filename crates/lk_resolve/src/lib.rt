//! Which inputs of a link are added, which definition each name means, and which sections are kept.
//!
//! Summaries of inputs come in, in the order of the command: each input outside a lib group by
//! `Resolver::add_input`, each lib group by `add_group`, of which those members are added that define a wanted
//! name. Out comes, by `settle`, a `Resolution`, or the faults of the names. Contracts see a resolver as the
//! state of the added inputs (`state_of` of specs/States.antt), and lk_model says which those are (`listed_of`
//! over `is_wanted_member`). Callers rely on one law: whatever inputs were added, what is resolved is
//! `found_of` of exactly these (`SettleGives` of specs/Settling.antt).
//!
//! Each name and signature is looked up by hash, and each contribution is looked at a fixed number of times;
//! a lib group costs up to three looks at its members, and after these one more at each and one for each name
//! that became wanted at those that define it.
#![tactic(auto)]

mod definers;
mod definition_faults;
mod input_symbols;
mod kept_sections;
mod made_names;
mod members;
mod name_searches;
mod resolution;
mod resolver;
mod searches;
mod section_places;
mod section_sets;
mod settle_faults;
mod settle_statuses;
mod settling;
mod state;
mod turns;
mod wanted_names;

pub use resolution::Resolution;
pub use resolver::Resolver;
pub use settle_faults::SettleFault;
