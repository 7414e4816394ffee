// Where extents start, as the bits of words: a bitmap's, and one word more that stays 0, since a word is read with the next one.
ghost use Rattle.extents.specs.Starts.{AreStarts, CanPut, CanFind, CanNarrow, Narrowed};

use available::available::available_word;
use bitmap::Bitmap;

// The available blocks, put into words of zeros: where extents of one block start.
fn put_available(sam: &[u32; 128], com: &[u32; 128], blocks: u32, starts: &mut [u32; 129])
    requires { CanPut blocks starts.old }
    ensures { AreStarts blocks sam.now «com».now 1 starts.new }
{
    let whole = (blocks / Bitmap::WORD_BITS) as usize;
    // No zip: behind an adapter of iter_mut a proof knows nothing of the words.
    for k in 0..whole {
        starts[k] = !(sam[k] | com[k]);
    }
    if blocks % Bitmap::WORD_BITS != 0 {
        starts[whole] = available_word(sam, com, blocks, whole);
    }
}

// Keeps the starts that have another start so many blocks above them. There are none from so many words on.
fn narrow(starts: &mut [u32; 129], words: usize, shift: u32)
    requires { CanNarrow words shift starts.old }
    ensures { Narrowed shift starts.old starts.new }
{
    // No plainer without a count: word k is made of words k and k + 1.
    for k in 0..words {
        let word = u64::from(starts[k]);
        let pair = word | u64::from(starts[k + 1]) << Bitmap::WORD_BITS;
        starts[k] = (word & (pair >> shift)) as u32;
    }
}

// Where extents of so many blocks start, put into words of zeros. By doubling: an extent of size + shift blocks starts where
// extents of size blocks start, there and shift blocks above, and shift may be anything up to size.
pub(crate) fn find_starts(
    sam: &[u32; 128],
    com: &[u32; 128],
    blocks: u32,
    count: u32,
    starts: &mut [u32; 129],
)
    requires { CanFind blocks count starts.old }
    ensures { AreStarts blocks sam.now «com».now count starts.new }
{
    put_available(sam, com, blocks, starts);
    let words = Bitmap::words_for(blocks) as usize;
    let mut size = 1;
    while size < count {
        let shift = size.min(count - size);
        narrow(starts, words, shift);
        size += shift;
    }
}
