// The texts of a Value Change Dump that no event changes: the header, and a refusal at the end. These functions answer nothing and are
// lent nothing to change, and what is written to a descriptor no contract can say, so they have none; what the program `vcd` writes with
// them is compared.
#![tactic(auto)]

pub mod header;
pub mod refusal;
