// Calls and rows in words, for people.
mod calls;
mod rows;
