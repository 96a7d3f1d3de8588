// Half-size colour from mosaics.
#![tactic(auto)]

pub mod half_window;
