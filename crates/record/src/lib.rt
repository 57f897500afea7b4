// Calls and rows as records of 64 bytes: `read_call`, `write_call`, `read_row`, `write_row`.
#![tactic(auto)]

mod bytes;
pub mod calls;
mod fields;
mod layouts;
mod letters;
mod reads;
pub mod rows;
mod tables;
mod writes;
