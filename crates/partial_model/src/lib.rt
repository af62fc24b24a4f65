//! Partial states, which are some texts of a state in the order of their bytes, and recordings with
//! a partial state in them: how they are spelled, and what is read from any bytes.
#![tactic(auto)]

pub mod examples;
pub mod laws;
