// The card, with demand 3.
#![tactic(auto)]

pub mod card;
