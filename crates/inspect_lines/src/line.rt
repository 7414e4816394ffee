// The bytes kept of a line.
ghost use Rattle.std.specs.Prelude.{◌≤◌, length};

// The most bytes kept of a line: one more than a line may have.
const KEPT: usize = 65;

// The first `len` bytes. Beside `keep` of bench_state, which promises the very bytes: neither program stands on the other.
#[derive(Drop)]
pub(crate) struct Line {
    bytes: [u8; 65],
    len: usize,
    ghost within: { len ≤ 65 },
}

impl Line {
    // No byte.
    pub(crate) fn new() -> Line {
        Line {
            bytes: [0; 65],
            len: 0,
        }
    }

    // Keeps no byte any more.
    pub(crate) fn clear(&mut self) {
        self.len = 0;
    }

    // Keeps the bytes that follow, as far as there is room.
    pub(crate) fn keep(&mut self, bytes: &[u8]) {
        let count = bytes.len().min(KEPT - self.len);
        let end = self.len + count;
        self.bytes[self.len..end].copy_from_slice(&bytes[..count]);
        self.len = end;
    }

    // The bytes kept.
    pub(crate) fn as_slice(&self) -> &[u8]
        ensures { length result.now ≤ 65 }
    {
        &self.bytes[..self.len]
    }
}
