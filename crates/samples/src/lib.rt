// The scaled values of a part of a row of the active area.
#![tactic(auto)]

pub mod along;
pub mod line;
pub mod scaled;
