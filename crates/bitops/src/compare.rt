// Bitmaps compared word by word: with another, with the empty one, and with a volume's size.
ghost use Rattle.std.specs.Prelude.{◌≡◌, ◌≤◌, length, replicate};
ghost use Rattle.bitmap.specs.Sizes.{bitmap_words, max_blocks};
ghost use Rattle.bitmap.specs.Bits.{no_bits_from};
ghost use Rattle.model.specs.Rules.Valid.{same_words};
ghost use Rattle.model.specs.Rules.Stores.{changes};

use bitmap::Bitmap;

// Whether two bitmaps are the same.
#[tactic(auto, using(crate::proofs::Laws::Compare::same_words_pointwise))]
pub fn same(a: &[u32; 128], b: &[u32; 128]) -> bool
    ensures { result ≡ same_words a.now b.now }
{
    a == b
}

// Whether all words are 0.
#[tactic(auto, using(crate::proofs::Laws::Compare::zero_step, crate::proofs::Laws::Compare::zero_end))]
fn zero(words: &[u32]) -> bool
    ensures { result ≡ no_bits_from 0 words.now }
{
    let mut bits = 0;
    for word in words {
        bits |= *word;
    }
    bits == 0
}

// Whether a bitmap is empty.
#[tactic(auto, using(crate::proofs::Laws::Compare::same_words_pointwise))]
pub fn is_empty(words: &[u32; 128]) -> bool
    ensures { result ≡ same_words words.now (replicate bitmap_words 0) }
{
    *words == [0; 128]
}

// Whether a bitmap has no bits from a volume's size on.
pub fn no_bits_from(words: &[u32; 128], blocks: u32) -> bool
    requires { blocks ≤ max_blocks }
    ensures { result ≡ no_bits_from blocks words.now }
{
    let place = (blocks / Bitmap::WORD_BITS) as usize;
    let Some((word, rest)) = words[place..].split_first() else {
        return true;
    };
    if *word >> (blocks % Bitmap::WORD_BITS) != 0 {
        return false;
    }
    zero(rest)
}

// The number of words in which two bitmaps differ.
#[tactic(auto, using(crate::proofs::Laws::Compare::changes_step, crate::proofs::Laws::Compare::changes_none_old, crate::proofs::Laws::Compare::changes_none_new, crate::proofs::Laws::Compare::one_at_most))]
pub fn changed(old: &[u32; 128], new: &[u32; 128]) -> u32
    ensures { result ≡ length (changes old.now new.now) }
{
    let mut count = 0;
    for (a, b) in old.iter().zip(new) {
        count += u32::from(*a != *b);
    }
    count
}
