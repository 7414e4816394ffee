// The available blocks, for the causes that are told by their number.
ghost use Rattle.std.specs.Prelude.{◌≡◌, length};
ghost use Rattle.model.specs.Rules.Available.{available};
ghost use Rattle.causes.specs.Known.{CanCount};

use counting::count_available;
use model_types::memory::Memory;

// They are counted only if they haven't been.
#[tactic(auto, unfolding(model::specs::Rules::Available::available))]
pub fn available_now(memory: &Memory, counted: Option<u32>) -> u32
    requires { CanCount counted memory.now }
    ensures { result ≡ length (available memory.now) }
{
    match counted {
        Some(available) => available,
        None => count_available(&memory.sam.words, &memory.com.words, memory.blocks),
    }
}
