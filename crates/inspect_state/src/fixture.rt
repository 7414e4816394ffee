// The fixture: what the calls are lent, and what one line leaves to the next.
ghost use Rattle.std.specs.Prelude.{◌≡◌, replicate};
ghost use Rattle.inspect_state.specs.Lent.{words_lent};

use crate::lent::Lent;
use model_types::memory::Memory;
use volume::format::DISK_WORDS;

// The longest disk.
pub const MAX_LENGTH: usize = 400;
// The places of the list.
pub const MAX_PLACES: usize = 64;

// The memory, the disk of at most 400 words, and the list of at most 64 places.
#[derive(Clone, Copy)]
pub struct Fixture {
    pub memory: Memory,
    pub disk: Lent<MAX_LENGTH>,
    pub list: Lent<MAX_PLACES>,
}

impl Fixture {
    // A disk of 386 zeros, a memory of zeros, a list of 64 zeros.
    pub fn new() -> Fixture
        ensures disk { words_lent result.disk ≡ replicate 386 0 }
        ensures list { words_lent result.list ≡ replicate 64 0 }
    {
        Fixture {
            memory: Memory::zero(),
            disk: Lent::zeros(DISK_WORDS),
            list: Lent::zeros(MAX_PLACES),
        }
    }
}
