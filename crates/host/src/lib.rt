// The host's boundary: C functions over the four crates. Each answers a number, 0 or that of a refusal, and writes four words of
// particulars. saqhovune.h says what they are.
#![tactic(auto)]

pub mod graph;
pub mod question;
pub mod reader;
mod reply;
pub mod resolve;
