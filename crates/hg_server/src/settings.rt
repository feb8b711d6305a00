//! What is asked of a server.

use std::time::Duration;

/// What a server listens on.
#[derive(Clone, Copy, Drop)]
pub enum Place {
    /// A port.
    Port { port: u16 },
    /// A socket in a folder.
    Socket,
}

/// How a server runs.
#[derive(Clone, Copy, Drop)]
pub struct Settings {
    /// What the listener has, which is printed.
    pub place: Place,
    /// How many pages may be in memory: 4 to 4,096.
    pub frames: u16,
    /// How many connections are taken.
    pub connections: u16,
    /// How many workers hold conversations.
    pub workers: u16,
    /// How many events have to be committed since the last checkpoint was begun, or since the opening, for another one.
    pub every: u32,
    /// How long a client may say nothing before its connection ends, or for ever.
    pub silence: Option<Duration>,
}
