//! The forms of a root's body.

/// A form of a root's body.
#[derive(Clone, Copy, Debug, PartialEq, Eq)]
pub(crate) enum Form {
    /// The form that is written. Each segment has its mark.
    Written,
    /// The form that was written before there were messages. It is read as the other is: all marks are plain.
    Former,
}
