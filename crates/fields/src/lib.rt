// What the programs that play lines of input have in common: the lines of the input, the numbers of a row, and what answers are made of.
// No part of the archive. All of it is proved safe and ending, and what the programs write is held by their stored outputs.
#![tactic(auto)]

pub mod answers;
pub mod held;
pub mod lines;
pub mod numbers;
pub mod output;
