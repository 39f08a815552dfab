//! The mark of a session's meters.

/// The mark of the meters that count the tests of patterns. A matcher is written for any mark, so it can make no such meter.
#[derive(Drop)]
pub struct Mark;
