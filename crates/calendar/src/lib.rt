// Calendars: sets of business days.
#![tactic(auto)]

pub mod calendars;
pub mod closings;
pub mod listed;
pub mod lists;
pub mod weekdays;
