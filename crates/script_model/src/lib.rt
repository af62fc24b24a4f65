//! The language of the program, as definitions. In reading order: `Spellings`, byte strings, ids and
//! numbers as they are written; `Lines`, the lines of an input and what they ask for; `Words`, what the
//! program is asked to do; `Bounds`, what that keeps to. `laws` says in other words what the definitions
//! come to.
#![tactic(auto)]

pub mod laws;
