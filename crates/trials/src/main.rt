// Document 01's trials at the edges and the Rust's doc examples, as far as they concern decimal by the end entries; the writer's are in trials_write.
// What a row of standard input is stands at the head of crates/player; the rooms behind the numbers of a type are its buffer size.
// The file stdout comes from the document and the Rust's text, never from what this program writes.
#![tactic(auto)]

// Each program is a crate with a main of its own, one call long.
fn main() {
    player::run();
}
