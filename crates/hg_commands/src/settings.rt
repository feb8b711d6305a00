//! What is asked of a feeding.

ghost use Rattle.hg_store.specs.Limits.{IsFrameCount};

/// How a store is fed.
#[derive(Clone, Copy, Drop)]
pub struct FeedSettings {
    /// The source that sends the events.
    pub source: u16,
    /// How many pages may be in memory: 4 to 4,096.
    pub frames: u16,
    /// How many threads may read lines, the calling one among them. What is done does not depend on it.
    pub jobs: usize,
    /// Whether a checkpoint is made where the input came to its end.
    pub checkpoint: bool,
    ghost fits: { IsFrameCount frames },
}
