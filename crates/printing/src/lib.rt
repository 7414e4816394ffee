// Output that is put together in a large piece, and written when the piece is full.
#![tactic(auto)]

pub mod runs;

ghost use Rattle.std.specs.Prelude.{◌≤◌, ◌≡◌, List, ℕ, take, [], IsOk};
ghost use Rattle.printing.specs.Waits.{piece, put_behind};

use std::fmt;
use std::marker::Model;

// Standard output's descriptor.
const STDOUT: i32 = 1;
// The bytes of a piece.
const PIECE: usize = 65536;

// A piece of output: the bytes before `end` wait to be written.
#[derive(Drop)]
pub struct Output {
    bytes: [u8; 65536],
    end: usize,
}

// For a contract, the bytes that wait.
impl Model for Output {
    ghost Value = { List ℕ };

    ghost view = { λ out. take out.end out.bytes };

    ghost invariant = { λ out. out.end ≤ piece };
}

impl Output {
    // Nothing waits yet.
    pub fn new() -> Output
        ensures { result ≡ [] }
    {
        Output {
            bytes: [0; 65536],
            end: 0,
        }
    }

    // Writes what waits.
    pub fn flush(&mut self)
        ensures { self.new ≡ [] }
    {
        io::write_all(STDOUT, &self.bytes[..self.end]);
        self.end = 0;
    }

    // Puts bytes behind what waits, which is written first if there is no room left. More than a piece is written at once.
    pub fn put(&mut self, bytes: &[u8])
        ensures { self.new ≡ put_behind self.old bytes.now }
    {
        if PIECE - self.end < bytes.len() {
            self.flush();
        }
        if bytes.len() <= PIECE - self.end {
            let end = self.end + bytes.len();
            self.bytes[self.end..end].copy_from_slice(bytes);
            self.end = end;
        } else {
            io::write_all(STDOUT, bytes);
        }
    }
}

impl fmt::Write for Output {
    ghost write_str_gives = { λ out text next. next ≡ put_behind out text };

    fn write_str(&mut self, text: &str) -> fmt::Result
        ensures waits { self.new ≡ put_behind self.old text.now }
        ensures never_fails { IsOk result }
    {
        self.put(text.as_bytes());
        Ok(())
    }
}
