// The state between two pieces of input.
ghost use Rattle.std.specs.Prelude.{◌≡◌, ◌≤◌, suc, take};
ghost use Rattle.model.specs.Rules.Bench.{max_lines};
ghost use Rattle.bench_state.specs.Keep.{NoNewline, kept};

use model_types::memory::Memory;

// The memory, the next line's number, and the bytes of a line that hasn't ended: the first len of line.
#[derive(Clone, Copy)]
pub struct Run {
    pub memory: Memory,
    pub number: u32,
    pub line: [u8; 66],
    pub len: usize,
    pub ghost few: { len ≤ kept },
    // No line after the last that is read is numbered.
    pub ghost lines: { number ≤ suc max_lines },
    // No line that is read ends in the bytes kept.
    pub ghost unended: { number ≤ max_lines → NoNewline (take len line) },
}

impl Run {
    ghost use Rattle.bench_state.specs.Begun.{Begun};

    // Before the first line.
    pub fn new() -> Run
        ensures { Begun result }
    {
        Run {
            memory: Memory::zero(),
            number: 1,
            line: [0; 66],
            len: 0,
        }
    }
}
