// The input of `inspect` cut into lines.
#![tactic(auto)]

mod line;

ghost use Rattle.std.specs.Prelude.{◌≤◌, IfSome, length};

use line::Line;
use std::io::Read;
use std::rt::Stdin;

// The lines of standard input: a piece of it, of which the bytes from `next` up to `end` are to be read, and what is kept of a line.
#[derive(Drop)]
pub struct Lines {
    stdin: Stdin,
    piece: [u8; 65536],
    next: usize,
    end: usize,
    line: Line,
    ghost onward: { next ≤ end },
    ghost within: { end ≤ 65536 },
}

impl Lines {
    // Before the first line.
    pub fn new(stdin: Stdin) -> Lines {
        Lines {
            stdin,
            piece: [0; 65536],
            next: 0,
            end: 0,
            line: Line::new(),
        }
    }

    // Reads on to the end of a line, or of the piece, and returns whether the line has ended.
    fn gather(&mut self) -> bool {
        let piece = &self.piece;
        let rest = &piece[self.next..self.end];
        let found = rest.iter().position(|byte| *byte == b'\n');
        let count = found.unwrap_or(rest.len());
        self.line.keep(&rest[..count]);
        self.next += count + usize::from(found.is_some());
        found.is_some()
    }

    // Reads the next piece, and returns whether there is one. A failed read counts as the input's end.
    fn fill(&mut self) -> bool {
        self.next = 0;
        self.end = self.stdin.read(&mut self.piece).unwrap_or(0);
        0 < self.end
    }

    // Reads on to the end of a line, or of the input, and returns whether there is a line.
    fn read_line(&mut self) -> bool {
        self.line.clear();
        // A proved loop has to end, so it has a number of turns that no input uses up.
        for _ in 0..u64::MAX {
            if self.gather() {
                return true;
            }
            if !self.fill() {
                break;
            }
        }
        !self.line.as_slice().is_empty()
    }

    // The next line's first 65 bytes. At the input's end there is a line if there are bytes of it.
    pub fn next_line(&mut self) -> Option<&[u8]>
        ensures { IfSome result (λ line. length line.now ≤ 65) }
    {
        if self.read_line() {
            return Some(self.line.as_slice());
        }
        None
    }
}
