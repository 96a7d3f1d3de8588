// OpcodeList2: the test of the list, and what an opcode does at one sample.
#![tactic(auto)]

pub mod gain_map;
pub mod grid;
pub mod list;
pub mod step;
pub mod step_at;
