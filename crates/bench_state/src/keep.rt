// The bytes kept of a line that hasn't ended.
ghost use Rattle.std.specs.Prelude.{◌≤◌};
ghost use Rattle.bench_state.specs.Keep.{Keeps, kept};

// The bytes kept of a line: one more than a line may have.
const KEPT: usize = 65;

// Keeps a part of a line behind the line's first len bytes. Of a longer line the first 65 are kept.
pub fn keep(part: &[u8], line: &mut [u8; 66], len: usize) -> usize
    requires { len ≤ kept }
    ensures { Keeps part.now line.old len line.new result }
{
    let free = KEPT - len;
    let count = free.min(part.len());
    let next = len + count;
    line[len..next].copy_from_slice(&part[..count]);
    next
}
