// Replays a stored list of Rust's answers: standard input has an input a line, and the file stdout the texts that Rust writes.
// Both files are made by `make list`: the oracle (oracle/src/list.rs, on Rust 1.97.0) takes the limits and then seeded random
// values, as many as the Makefile says. What a line is stands at the head of crates/player.
#![tactic(auto)]

// Each program is a crate with a main of its own, one call long.
fn main() {
    player::run();
}
