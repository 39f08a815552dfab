mod keys;
mod matchers;
