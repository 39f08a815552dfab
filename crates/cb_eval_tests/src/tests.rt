mod fields;
mod numbers;
mod rows;
mod truths;
