//! The replies of a script as they go to the standard output: which of them is the first by which the disk failed. It is
//! for a message to people, and no contract reads it.

/// How the reply begins by which a call of the disk failed.
const FAILED: &[u8] = b"refused 14 ";

/// The replies that went through so far.
#[derive(Debug, Drop)]
pub(crate) struct Replies {
    /// How many lines ended.
    lines: u64,
    /// How many bytes of `FAILED` the line that is open begins with; or none, where it doesn't begin so.
    alike: Option<usize>,
    failed: Option<u64>,
}

impl Replies {
    /// No reply went through.
    pub(crate) fn new() -> Replies {
        Replies {
            lines: 0,
            alike: Some(0),
            failed: None,
        }
    }

    /// The number of the first reply by which the disk failed; they are counted from 1.
    pub(crate) fn failed(&self) -> Option<u64> {
        self.failed
    }

    /// More bytes of replies go through.
    pub(crate) fn pass(&mut self, bytes: &[u8]) {
        if self.failed.is_some() {
            return;
        }
        for byte in bytes {
            self.pass_byte(*byte);
        }
    }

    // One more byte goes through.
    fn pass_byte(&mut self, byte: u8) {
        if byte == b'\n' {
            self.lines = self.lines.saturating_add(1);
            self.alike = Some(0);
            return;
        }
        let Some(alike) = self.alike else {
            return;
        };
        self.alike = match FAILED.get(alike) {
            Some(wanted) if *wanted == byte => Some(alike.saturating_add(1)),
            _ => None,
        };
        if self.alike == Some(FAILED.len()) && self.failed.is_none() {
            self.failed = Some(self.lines.saturating_add(1));
        }
    }
}
