// Causes of a block to be given back.
ghost use Rattle.std.specs.Prelude.{◌≡◌, ◌≤◌};
ghost use Rattle.bitmap.specs.Sizes.{max_blocks};
ghost use Rattle.model.specs.Rules.First.{first};
ghost use Rattle.model.specs.Rules.CauseLists.{block_causes};
ghost use Rattle.model_types.specs.Answers.{answer};

use bitops::block::has;
use model_types::answer::Answer;
use model_types::error::Error;
use model_types::memory::Memory;

// 18, 19 and 20: deallocate.
pub fn block_causes(memory: &Memory, block: u32) -> Answer<()>
    requires { memory.now.blocks ≤ max_blocks }
    ensures { result ≡ answer (first (block_causes memory.now.blocks memory.now.sam.words memory.now.com.words block)) tt }
{
    if memory.blocks <= block {
        return Err(Error::BlockRange);
    }
    if !has(&memory.sam.words, block) {
        return Err(Error::BlockFree);
    }
    if !has(&memory.com.words, block) {
        return Err(Error::BlockFreeing);
    }
    Ok(())
}
