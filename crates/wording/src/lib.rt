// What belongs to an event in words on standard output: its command, its actions, its replies and what is then waited for. These
// functions answer nothing and are lent nothing to change, and what is written to a descriptor no contract can say, so they have none;
// what the program `view` writes with them is compared. (No Display: what is said goes to a descriptor piece by piece, as it is found.)
#![tactic(auto)]

pub mod items;
pub mod replies;
pub mod text;
pub mod waveform;
