// Document 01's writing trials at the edges, its slips and its refusals, and the Rust's integer examples. What a row of standard input is
// stands at the head of crates/player; value and options follow in the order
// `bits signed value format plus alternate zero fill align width given precision`, with the room behind them where it is a part of the trial.
// The file stdout is written by hand from the document, the std::fmt guide and fmt/mod.rs, never from what this program writes.
#![tactic(auto)]

// Each program is a crate with a main of its own, one call long.
fn main() {
    player::run();
}
