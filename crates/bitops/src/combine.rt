// Three bitmaps combined word by word: what a rollback and another slot's commit make of them.
ghost use Rattle.std.specs.Prelude.{◌≡◌};
ghost use Rattle.bitmap.proofs.Laws.Majority.{majority_word};
ghost use Rattle.bitops.specs.Combine.{rollback_word, refresh_word, zip3, Combined};

use bitmap::Bitmap;

// At least two of three, bit by bit.
#[tactic(auto, unfolding(bitmap::proofs::Laws::Majority::majority_word))]
fn majority_word(a: u32, b: u32, c: u32) -> u32
    ensures { result ≡ majority_word a b c }
{
    (a & b) | (c & (a | b))
}

// The new word's bit where the old and the new word differ, and the other's elsewhere.
#[tactic(auto, unfolding(crate::specs::Combine::refresh_word))]
fn refresh_word(old: u32, new: u32, other: u32) -> u32
    ensures { result ≡ refresh_word old new other }
{
    let changed = old ^ new;
    (new & changed) | (other & !changed)
}

// Makes each word what a function makes of it and of the two others' words in its place.
pub fn combine<F: Fn(u32, u32, u32) -> u32>(
    words: &mut [u32; 128],
    a: &[u32; 128],
    b: &[u32; 128],
    word: F,
)
    requires { F.IsAlwaysCallable word }
    ensures { Combined (F.post word) words.old a.now b.now words.new }
{
    // No zip: behind an adapter of iter_mut a proof knows nothing of the words.
    for k in 0..Bitmap::WORDS {
        words[k] = word(words[k], a[k], b[k]);
    }
}

// Makes COM the majority of COM, SAM and the complement of TAM: what a rollback leaves.
pub fn rollback(com: &mut [u32; 128], sam: &[u32; 128], tam: &[u32; 128])
    ensures { «com».new ≡ zip3 rollback_word «com».old sam.now tam.now }
{
    combine(com, sam, tam, |com, sam, tam| majority_word(com, sam, !tam));
}

// Gives TAM the new SAM's bit of each block whose SAM bit another slot's commit changed.
pub fn refresh(tam: &mut [u32; 128], old: &[u32; 128], new: &[u32; 128])
    ensures { tam.new ≡ zip3 refresh_word old.now new.now tam.old }
{
    combine(tam, old, new, |tam, old, new| refresh_word(old, new, tam));
}
