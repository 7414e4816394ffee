// What is left: the blocks at which COM differs from SAM, less those that the slots passed have touched.
ghost use Rattle.std.specs.Prelude.{◌≡◌};
ghost use Rattle.touches.specs.Left.{differ, TouchedTaken};

use bitmap::Bitmap;
use bitops::combine::combine;

// Puts the blocks at which COM differs from SAM into left.
pub fn differences(left: &mut [u32; 128], sam: &[u32; 128], com: &[u32; 128])
    ensures { left.new ≡ differ sam.now «com».now }
{
    combine(left, sam, com, |_, sam, com| sam ^ com);
}

// Takes what a slot has touched, the blocks at which its TAM differs from SAM, from what is left. Whether all of it was
// left.
#[tactic(auto, using(crate::proofs::Laws::Taking::taking_none))]
pub fn take_touched(left: &mut [u32; 128], sam: &[u32; 128], tam: &[u32; 128]) -> bool
    ensures { TouchedTaken left.old (differ tam.now sam.now) result left.new }
{
    let mut wrong = 0;
    // No zip: behind an adapter of iter_mut a proof knows nothing of the words.
    for k in 0..Bitmap::WORDS {
        let touched = tam[k] ^ sam[k];
        let rest = left[k] ^ touched;
        // A block that wasn't left is in the rest now.
        wrong |= touched & rest;
        left[k] = rest;
    }
    wrong == 0
}
