// A prediction from the samples before a place, and the residual that it leaves of the sample there.
#![tactic(auto)]

pub mod centre;
pub mod config;
pub mod prediction;
