//! How often each text is counted over live blocks, which texts clash, and how many texts a history loads. Definitions, laws and worked histories; there is nothing to run.
#![tactic(auto)]

pub mod examples;
pub mod laws;
