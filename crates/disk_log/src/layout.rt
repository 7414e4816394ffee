// The disk's layout, named once. Document 01, "The medium and its stores".

// Word 0, the block count m.
pub const BLOCKS_AT: usize = 0;
// Word 1, the log length (document 01: the pending count).
pub const LENGTH_AT: usize = 1;
// Where SAM starts.
pub const BITMAP_AT: usize = 2;
// Where the log starts: an entry's number, then its contents.
pub const LOG_AT: usize = 130;
// The words of a disk.
pub const DISK_WORDS: usize = 386;
