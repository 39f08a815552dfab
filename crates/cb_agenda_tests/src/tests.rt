mod by_key;
mod by_number;
mod called;
mod calls;
mod many;
mod matches;
mod refusals;
mod steps;
