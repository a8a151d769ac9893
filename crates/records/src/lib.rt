// Names and records of Java modules: the form of document 01, its checks, and every question that is asked of one
// module or one request.
#![tactic(auto)]

pub mod automatic;
pub mod bytes;
pub mod descriptor;
pub mod error;
pub mod finder;
pub mod jar;
mod keys;
pub mod name;
pub mod order;
pub mod output;
pub mod record;
pub mod request;
pub mod set;
pub mod sorted;
