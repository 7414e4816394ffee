// Whether a disk is as SAM and the stores done of a recovery leave it.
ghost use Rattle.std.specs.Prelude.{◌≡◌, ◌≤◌, ◌<◌};
ghost use Rattle.bitmap.specs.Sizes.{max_blocks};
ghost use Rattle.model.specs.Rules.Disk.{log_entries, entries_agree, recovery_matches};
ghost use Rattle.disk_log.specs.Given.{Logged};
ghost use Rattle.disk_match.specs.Matching.{log_agrees};

use crate::head::head_matches;
use bitops::compare::{no_bits_from, same};
use disk_log::layout::DISK_WORDS;
use disk_log::log::{entries, log_valid};
use disk_log::replay::rewrite;
use disk_log::sam::bitmap;

// Whether the entries of the log agree with a bitmap.
fn entries_agree(disk: &[u32; DISK_WORDS], words: &[u32; 128]) -> bool
    requires logged { Logged disk.now }
    ensures { result ≡ entries_agree words.now (log_entries disk.now) }
{
    for &[number, contents] in entries(disk) {
        if words[number as usize] != contents {
            return false;
        }
    }
    true
}

// Whether the log has so many entries, is valid and agrees with SAM.
#[tactic(auto, unfolding(crate::specs::Matching::log_agrees))]
fn log_agrees(disk: &[u32; DISK_WORDS], sam: &[u32; 128], blocks: u32, entries: u32) -> bool
    requires blocks_le_max_blocks { blocks ≤ max_blocks }
    ensures { result ≡ log_agrees disk.now sam.now blocks entries }
{
    head_matches(disk, blocks, entries) && log_valid(disk) && entries_agree(disk, sam)
}

// While a recovery is stored: the log agrees with SAM, and with the words still due written, so does the bitmap.
pub fn recovery_matches(
    disk: &[u32; DISK_WORDS],
    blocks: u32,
    sam: &[u32; 128],
    done: u32,
    due: u32,
) -> bool
    requires blocks_le_max_blocks { blocks ≤ max_blocks }
    requires done_lt_due { done < due }
    ensures { result ≡ recovery_matches blocks sam.now disk.now done due }
{
    if !log_agrees(disk, sam, blocks, due - 1) {
        return false;
    }
    let mut words = bitmap(disk);
    if !no_bits_from(&words, blocks) {
        return false;
    }
    rewrite(&mut words, disk, done as usize);
    same(&words, sam)
}
