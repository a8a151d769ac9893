// Resolution: which modules of a set start for a request, whom each reads, and who owns a package.
#![tactic(auto)]

pub mod absent;
pub mod configuration;
mod configure;
mod filter;
mod graph;
mod hash;
mod limits;
pub mod module_table;
mod modules;
pub mod owner;
mod providers;
mod reach;
pub mod read;
mod readability;
pub mod resolve;
mod resolver;
mod roots;
mod rounds;
pub mod row;
mod sources;
mod table;
pub mod visible;
mod wanted;
mod word;
