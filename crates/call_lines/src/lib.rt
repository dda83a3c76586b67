// The calls of the readers and writers of records: the record in a call's bytes, and the line of its answer. A file's calls are a module.
#![tactic(auto)]

mod call;
pub mod file_070;
pub mod file_730;
mod hex;
mod lines;

// How many bytes stand in front of what is read: the file, what is asked and the length.
pub const FRONT: usize = 12;
