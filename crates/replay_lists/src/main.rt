// Replays stored lists of 0 to 12 parts: what twelve_parts::length and write answer, beside Rust's Formatted.
// Standard input and the file stdout are made by `make list` (oracle/src/parts/list.rs, on Rust 1.97.0). What a line is stands at the
// head of crates/part_lines.
#![tactic(auto)]

// Each program is a crate with a main of its own, one call long.
fn main() {
    part_lines::run();
}
