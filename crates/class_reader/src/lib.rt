// Class files: module-info.class to the records of its module.
#![tactic(auto)]

mod attribute;
pub mod class_file;
mod entry;
mod measure;
mod output;
mod packages;
mod pool;
