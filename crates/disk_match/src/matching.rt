// A disk compared with SAM, and with SAM and a commit's stores: cause 6.
ghost use Rattle.std.specs.Prelude.{◌≡◌, [], ◌<◌, length};
ghost use Rattle.model_types.specs.Pending.{stores_for};
ghost use Rattle.model.specs.Rules.Stores.{changes, commit_stores};
ghost use Rattle.model.specs.Rules.Disk.{image_matches};

use crate::head::head_matches;
use crate::written::{changed_match, kept_match};
use bitops::compare::same;
use disk_log::layout::DISK_WORDS;
use disk_log::phase::Phase;
use disk_log::sam::bitmap;
use model_types::memory::Pending;

// With nothing pending: an empty log, and SAM.
pub fn settled_matches(disk: &[u32; DISK_WORDS], blocks: u32, sam: &[u32; 128]) -> bool
    ensures { result ≡ image_matches blocks sam.now disk.now 0 [] }
{
    head_matches(disk, blocks, 0) && same(&bitmap(disk), sam)
}

// While the commit of a new SAM is stored, with stores still due.
pub fn commit_matches(
    disk: &[u32; DISK_WORDS],
    blocks: u32,
    sam: &[u32; 128],
    new: &[u32; 128],
    done: u32,
    due: u32,
) -> bool
    requires due_value { due ≡ stores_for (length (changes sam.now new.now)) }
    requires done_lt_due { done < due }
    ensures { result ≡ image_matches blocks sam.now disk.now done (commit_stores (changes sam.now new.now)) }
{
    let changed = Pending::changed_for(due);
    let words = changed as usize;
    let phase = Phase::after(words, done as usize);
    let checkpointed = phase.checkpointed(words);
    head_matches(disk, blocks, phase.log_length(changed))
        && kept_match(disk, sam, new)
        && changed_match(disk, done as usize, checkpointed, words, sam, new)
}
