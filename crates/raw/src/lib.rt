// The raw directory behind its tags: refusal 9, and where each stored sample stands.
#![tactic(auto)]

pub mod front;
pub mod greatest;
pub mod sample;
pub mod spans;
