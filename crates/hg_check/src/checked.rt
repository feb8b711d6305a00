//! What checking a trace text comes to.

ghost use Rattle.std.specs.Prelude.{◌≡◌, false};

/// What checking a trace text comes to.
#[derive(Clone, Copy, Debug, PartialEq, Eq, Drop)]
pub struct Checked {
    /// The exit status: 0, 2 or 3.
    pub status: u8,
    /// Whether races were counted, be they kept or not. None are told of with status 3.
    pub has_races: bool,
}

impl Checked {
    /// A run that a fault ended.
    pub(crate) fn failed(status: u8) -> Checked
        ensures status { result.status ≡ status }
        ensures none { result.has_races ≡ false }
    {
        Checked {
            status,
            has_races: false,
        }
    }
}
