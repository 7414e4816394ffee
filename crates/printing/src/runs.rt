// Words printed as runs of equal ones.
use crate::Output;
use std::fmt::Write;

// Puts all runs, lowest first: how many words, and the word.
pub fn put_runs(out: &mut Output, words: &[u32]) {
    for run in words.chunk_by(|one, next| *one == *next) {
        let count = run.len();
        let word = run[0];
        // Putting text never fails: what can't be written is lost.
        let _ = write!(out, " {count}x{word}");
    }
}
