// Words of which the first are lent to the calls.
ghost use Rattle.std.specs.Prelude.{◌≡◌, ◌≤◌, ◌<◌, ◌++◌, ◌-◌, ◌↔◌, take, length, min, replicate, IsSome, IfNone, OnSome, slice_set};

// N words, and how many of them are lent. A contract sees those that are lent. No impl Model says so, since one that forgets the others
// can't be Copy.
#[derive(Clone, Copy)]
pub struct Lent<const N: usize> {
    words: [u32; N],
    len: usize,
    ghost within: { len ≤ N },
}

impl<const N: usize> Lent<N> {
    ghost use Rattle.inspect_state.specs.Lent.{words_lent};

    // Zeros, of which so many are lent, but no more than there are.
    pub fn zeros(len: usize) -> Lent<N>
        ensures { words_lent result ≡ replicate (min len N) 0 }
    {
        Lent {
            words: [0; N],
            len: len.min(N),
        }
    }

    // The words lent.
    pub fn as_slice(&self) -> &[u32]
        ensures { result.now ≡ words_lent self.now }
    {
        &self.words[..self.len]
    }

    // The words lent, to be written.
    pub fn as_mut_slice(&mut self) -> &mut [u32]
        ensures { result.now ≡ words_lent self.old }
    {
        // In steps: the borrow checker lends no part of a field that is an array.
        let len = self.len;
        let array = &mut self.words;
        let words = &mut array[..];
        &mut words[..len]
    }

    // Word I becomes V, if it is lent.
    pub fn set_word(&mut self, index: usize, word: u32) -> Option<()>
        ensures in_range { IsSome result ↔ (index < length (words_lent self.old)) }
        ensures set { OnSome result (words_lent self.new ≡ slice_set (words_lent self.old) index word) }
        ensures kept { IfNone result (words_lent self.new ≡ words_lent self.old) }
    {
        if self.len <= index {
            return None;
        }
        self.words[index] = word;
        Some(())
    }

    // The first words are lent from now on, so many, if there are.
    pub fn set_len(&mut self, len: usize) -> Option<()>
        ensures in_range { IsSome result ↔ (len ≤ N) }
        ensures length { OnSome result (length (words_lent self.new) ≡ len) }
        ensures kept { IfNone result (words_lent self.new ≡ words_lent self.old) }
    {
        if N < len {
            return None;
        }
        self.len = len;
        Some(())
    }

    // The same, and words added are 0.
    pub fn resize(&mut self, new_len: usize) -> Option<()>
        ensures in_range { IsSome result ↔ (new_len ≤ N) }
        ensures words { OnSome result (words_lent self.new ≡ take new_len (words_lent self.old) ++ replicate (new_len - length (words_lent self.old)) 0) }
        ensures kept { IfNone result (words_lent self.new ≡ words_lent self.old) }
    {
        if N < new_len {
            return None;
        }
        let words = &mut self.words[..];
        words[self.len..].fill(0);
        self.len = new_len;
        Some(())
    }
}
