//! Which streams take their bytes from input.

ghost use Rattle.std.specs.Prelude.{◌≡◌};
ghost use Rattle.drm_schedule.specs.Live as live;

/// For each stream number whether that stream takes its bytes from input.
#[derive(Clone, Copy, Debug, PartialEq, Eq)]
pub struct Live {
    /// By the number of the stream, 0 to 3.
    pub streams: [bool; 4],
}

impl Live {
    /// No stream does.
    pub fn none() -> Live
        ensures { result ≡ live.none }
    {
        Live {
            streams: [false; 4],
        }
    }

    /// Whether any does.
    pub fn any(&self) -> bool
        ensures { result ≡ live.is_any self.now }
    {
        self.streams[0] || self.streams[1] || self.streams[2] || self.streams[3]
    }

    /// Whether stream `k` does.
    pub fn has(&self, k: usize) -> bool
        ensures { result ≡ live.is_live self.now k }
    {
        k < 4 && self.streams[k]
    }
}
