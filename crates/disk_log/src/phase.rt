// How far a commit's stores have come: the log, the commit point, the bitmap, the closing store. Document 01, "The medium and its
// stores".
ghost use Rattle.std.specs.Prelude.{◌≡◌, ◌≤◌, ◌<◌};
ghost use Rattle.bitmap.specs.Sizes.{bitmap_words};
ghost use Rattle.model_types.specs.Pending.{stores_for};
ghost use Rattle.disk_log.specs.Phase.{InPhase, log_length_in, checkpointed_in};

// What the next store of a commit is.
#[derive(Clone, Copy)]
pub enum Phase {
    // A word of the log.
    Log,
    // The commit point: word 1 becomes the log length.
    Point,
    // The changed word of this number, to the bitmap.
    Word(usize),
    // Word 1 becomes 0.
    Closing,
}

impl Phase {
    // By the words that the commit changes, and its stores done.
    pub fn after(changed: usize, done: usize) -> Phase
        requires changed_le_bitmap_words { changed ≤ bitmap_words }
        requires done_bound { done < stores_for changed }
        ensures { InPhase changed done result }
    {
        let log = 2 * changed;
        if done < log {
            return Phase::Log;
        }
        if done == log {
            return Phase::Point;
        }
        let i = done - (log + 1);
        if i == changed {
            Phase::Closing
        } else {
            Phase::Word(i)
        }
    }

    // The log length on the disk: 0 until the commit point.
    pub fn log_length(self, changed: u32) -> u32
        ensures { result ≡ log_length_in self changed }
    {
        match self {
            Phase::Log | Phase::Point => 0,
            Phase::Word(_) | Phase::Closing => changed,
        }
    }

    // How many changed words stand in the disk's bitmap.
    pub fn checkpointed(self, changed: usize) -> usize
        ensures { result ≡ checkpointed_in self changed }
    {
        match self {
            Phase::Log | Phase::Point => 0,
            Phase::Word(i) => i,
            Phase::Closing => changed,
        }
    }
}
