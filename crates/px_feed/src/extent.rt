//! How much of a feed has been read.

ghost use Rattle.std.specs.Prelude.{◌≡◌, ◌≤◌, ◌<◌, ◌+◌, length, MatchOption};
ghost use Rattle.px_feed.specs.Items.{most_bytes};

/// The most bytes of a feed.
const MAX_BYTES: u64 = 1_099_511_627_776;

/// The lines that have ended, and their bytes.
#[derive(Clone, Copy)]
pub struct Extent {
    lines: u64,
    bytes: u64,
    ghost counted: { lines ≤ bytes },
    ghost bounded: { bytes ≤ most_bytes },
}

impl Extent {
    pub fn start() -> Extent
        ensures lines { result.lines ≡ 0 }
        ensures bytes { result.bytes ≡ 0 }
    {
        Extent { lines: 0, bytes: 0 }
    }

    /// How many more bytes a feed may have.
    pub fn room(&self) -> u64
        ensures { result + self.now.bytes ≡ most_bytes }
    {
        MAX_BYTES - self.bytes
    }

    /// The number of all lines, where one without a line feed stands behind those that have ended
    /// or none.
    pub fn lines_with(&self, last: &[u8]) -> u64
        ensures none { length last.now ≡ 0 → result ≡ self.now.lines }
        ensures some { 0 < length last.now → result ≡ self.now.lines + 1 }
    {
        if last.is_empty() {
            self.lines
        } else {
            self.lines + 1
        }
    }

    /// The number, from 1, of the line behind those that have ended.
    pub fn next_line(&self) -> u64
        ensures { result ≡ self.now.lines + 1 }
    {
        self.lines + 1
    }

    /// The extent with a line more, of so many bytes, unless they are too many.
    pub fn with_line(&self, count: usize) -> Option<Extent>
        requires { 0 < count }
        ensures { MatchOption result (most_bytes < self.now.bytes + count)
            (λ grown. (grown.lines ≡ self.now.lines + 1) × (grown.bytes ≡ self.now.bytes + count)) }
    {
        if count as u64 > self.room() {
            return None;
        }
        Some(Extent {
            lines: self.lines + 1,
            bytes: self.bytes + count as u64,
        })
    }
}
