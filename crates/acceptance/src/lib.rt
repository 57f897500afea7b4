// Examples of the other crates at work, as tests.
#![tactic(auto)]

#[cfg(test)]
mod answers;
#[cfg(test)]
mod days;
#[cfg(test)]
mod keys;
#[cfg(test)]
mod payments;
#[cfg(test)]
mod records;
#[cfg(test)]
mod sharing;
