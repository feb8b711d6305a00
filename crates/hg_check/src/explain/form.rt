//! What is asked of a word.

/// How the life of a word is told.
#[derive(Clone, Copy, Debug, PartialEq, Eq, Drop)]
pub struct Form {
    /// Each event that overlaps the word has a line, and not only one that changes its state.
    pub all: bool,
    /// The line of an event tells which line of the text it is.
    pub lines: bool,
}

/// What is asked: the life of a word, by the word's number, and how it is to be told.
#[derive(Clone, Copy, Debug, PartialEq, Eq, Drop)]
pub struct Asked {
    pub word: u64,
    pub form: Form,
}
