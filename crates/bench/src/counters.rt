// What the calls of a list give in sum.
use cache::{Answer, Changed, Proposed, Source};
use std::fmt;

// The calls, those refused, the answers from the cache, the rows read, the bytes of the records, the rows changed or proposed, the answers dropped; and a checksum, if it is asked for.
#[derive(Clone, Copy, Default)]
pub struct Counters {
    called: u64,
    refused: u64,
    cached: u64,
    read: u64,
    bytes: usize,
    changed: u64,
    dropped: u64,
    sum: Option<u64>,
}

impl Counters {
    // With a checksum.
    pub fn with_sum() -> Self {
        Counters {
            sum: Some(0),
            ..Counters::default()
        }
    }

    pub fn call(&mut self) {
        self.called = self.called.wrapping_add(1);
    }

    // A call that was refused, or was not. A Boolean: a state that is not sound, a row that is not there and a call have no error of one type.
    pub fn refuse(&mut self, refused: bool) {
        self.refused = self.refused.wrapping_add(u64::from(refused));
    }

    pub fn ask(&mut self, answer: Answer) {
        if answer.source == Source::Cached {
            self.cached = self.cached.wrapping_add(1);
        }
        self.read = self.read.wrapping_add(u64::from(answer.scanned));
        self.show(answer.size);
    }

    pub fn show(&mut self, bytes: usize) {
        self.bytes = self.bytes.wrapping_add(bytes);
    }

    pub fn update(&mut self, changed: Changed) {
        self.changed = self.changed.wrapping_add(u64::from(changed.rows));
        self.dropped = self.dropped.wrapping_add(u64::from(changed.invalidated));
    }

    pub fn propose(&mut self, proposed: Proposed) {
        self.changed = self.changed.wrapping_add(u64::from(proposed.rows));
    }

    // Three times the checksum and a byte, for each byte of an answer.
    pub fn check(&mut self, answer: &[u8]) {
        if let Some(sum) = self.sum {
            let after = answer.iter().fold(sum, |sum, b| {
                sum.wrapping_mul(3).wrapping_add(u64::from(*b))
            });
            self.sum = Some(after);
        }
    }
}

impl fmt::Display for Counters {
    fn fmt<W: fmt::Write>(&self, f: &mut fmt::Formatter<W>) -> fmt::Result {
        write!(f, "calls {} refused {}", self.called, self.refused)?;
        write!(
            f,
            " cached {} read {} bytes {}",
            self.cached, self.read, self.bytes
        )?;
        write!(f, " changed {} dropped {}", self.changed, self.dropped)?;
        match self.sum {
            Some(sum) => write!(f, " sum {sum}"),
            None => Ok(()),
        }
    }
}
