// Which module may see which package: verdicts for access and for reflection, and the graph of reads.
#![tactic(auto)]

pub mod access;
pub mod graph;
mod members;
