// Reading, and an account of it that no other module can make: each byte read is counted here.
ghost use Rattle.std.specs.Prelude.{◌≡◌, ◌+◌, ◌^◌, ◌≤◌, ◌<◌, length};

use std::io::Read as _;
use std::rt::Stdin;

// How many bytes were read: in the last piece, and in all.
#[derive(Clone, Copy)]
pub(crate) struct Read {
    last: usize,
    count: u128,
}

impl Read {
    // Nothing is read. The last piece isn't empty, since that would be the input's end.
    pub(crate) fn none() -> Read
        ensures counts { result.count ≡ 0 }
        ensures unended { 0 < result.last }
    {
        Read { last: 1, count: 0 }
    }

    // Reads a piece of standard input to the front of the slice, and gives its length. A failed read counts as the
    // input's end.
    pub(crate) fn piece(&mut self, mut stdin: Stdin, input: &mut [u8]) -> usize
        requires { self.old.count + length input.old < 2 ^ 128 }
        ensures within { result ≤ length input.new }
        ensures last { self.new.last ≡ result }
        ensures counts { self.new.count ≡ self.old.count + result }
    {
        let n = stdin.read(input).unwrap_or(0);
        self.last = n;
        self.count += n as u128;
        n
    }
}
