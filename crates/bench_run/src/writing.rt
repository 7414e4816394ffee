// Writing, and an account of it that no other module can make: each byte handed to write is counted here.
ghost use Rattle.std.specs.Prelude.{◌≡◌, ◌+◌, ◌^◌, ◌<◌, length};

// Standard output's descriptor.
const STDOUT: i32 = 1;

// How many bytes were written.
#[derive(Clone, Copy)]
pub(crate) struct Written {
    count: u64,
}

impl Written {
    // Nothing is written.
    pub(crate) fn none() -> Written
        ensures { result.count ≡ 0 }
    {
        Written { count: 0 }
    }

    // Writes the bytes to standard output.
    pub(crate) fn piece(&mut self, bytes: &[u8])
        requires { self.old.count + length bytes.now < 2 ^ 64 }
        ensures { self.new.count ≡ self.old.count + length bytes.now }
    {
        io::write_all(STDOUT, bytes);
        self.count += bytes.len() as u64;
    }
}
