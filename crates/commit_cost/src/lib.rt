// Commit cost: the most stores that a slot's commit may need once the slot has so many blocks more. The memory stays.
#![tactic(auto)]

ghost use Rattle.std.specs.Prelude.{◌≡◌, ◌≤◌};
ghost use Rattle.bitmap.specs.Sizes.{bitmap_words};
ghost use Rattle.model.specs.Rules.Calls.CommitCost.{cost_for, commit_cost_answer};

use bitmap::Bitmap;
use causes::counted::available_now;
use causes::grants::cost_causes;
use counting::count_differing;
use model_types::answer::Answer;
use model_types::memory::{Memory, Pending};
use reserves::sums::others;
use verdicts::ready::open;

// The most stores of a commit with so many blocks touched: it changes no more words than blocks, and no more than there are.
fn stores_at_most(words: u32, touched: u32) -> u32
    requires { words ≤ bitmap_words }
    ensures { result ≡ cost_for words touched }
{
    if touched == 0 {
        return 0;
    }
    Pending::stores_for(touched.min(words))
}

// Tells what the commit of an open slot may cost with so many blocks more.
pub fn commit_cost(memory: &Memory, slot: u32, count: u32) -> Answer<u32>
    ensures { result ≡ commit_cost_answer memory.now slot count }
{
    let ready = open(memory, slot)?;
    let available = available_now(memory, ready.counted);
    let kept = others(&memory.reserves, ready.at);
    cost_causes(available, count, kept)?;
    let touched = count_differing(&memory.slots[ready.at].tam.words, &memory.sam.words);
    Ok(stores_at_most(Bitmap::words_for(memory.blocks), touched + count))
}
