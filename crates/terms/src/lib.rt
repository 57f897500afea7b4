// The terms of a delivery month: what can be asked of it, what it writes, what it refuses. The law of the month, which speaks of these
// values, stands in specs/, from Law.antt down.
#![tactic(auto)]

pub mod calls;
pub mod examples;
pub mod facts;
pub mod holdings;
pub mod refusals;
pub mod rows;
mod words;
