//! Where `printout` prints.

/// Where printed values go.
#[derive(Clone, Copy, Debug, PartialEq, Eq)]
pub enum Channel {
    /// To the transcript: `t` and `stdout`.
    Output,
    /// Nowhere: `nil`.
    Nowhere,
}
