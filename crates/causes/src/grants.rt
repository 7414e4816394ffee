// Causes of a count of blocks, and of a reservation. So many blocks are available, and so many are kept for the others: numbers one by
// one, since each list takes those that it tests.
ghost use Rattle.std.specs.Prelude.{◌≡◌, ◌+◌, ◌^◌, ◌<◌};
ghost use Rattle.model.specs.Rules.First.{first};
ghost use Rattle.model.specs.Rules.CauseLists.{count_causes, enough_causes, grant_causes, cost_causes, request_causes, spare_causes, room_causes};
ghost use Rattle.model_types.specs.Answers.{answer};

use bitmap::Bitmap;
use model_types::answer::Answer;
use model_types::error::Error;
use reserves::sums::leaves_fewer;

// 15 and 16: allocate, of an extent or not.
fn count_causes(count: u32, list: &[u32]) -> Answer<()>
    ensures { result ≡ answer (first (count_causes count list.now)) tt }
{
    if !Bitmap::count_in_range(count) {
        return Err(Error::CountRange);
    }
    if list.len() < count as usize {
        return Err(Error::ListShort);
    }
    Ok(())
}

// 24: the last of allocate, of an extent or not, and of commit cost.
pub fn spare_causes(available: u32, count: u32, kept: u64) -> Answer<()>
    ensures { result ≡ answer (first (spare_causes available count kept)) tt }
{
    if leaves_fewer(available, count, kept) {
        return Err(Error::ReservedForOthers);
    }
    Ok(())
}

// 17 and 24: allocate and commit cost.
fn enough_causes(available: u32, count: u32, kept: u64) -> Answer<()>
    ensures { result ≡ answer (first (enough_causes available count kept)) tt }
{
    if available < count {
        return Err(Error::TooFewAvailable);
    }
    spare_causes(available, count, kept)
}

// 15, 16, 17 and 24: allocate.
pub fn grant_causes(available: u32, count: u32, list: &[u32], kept: u64) -> Answer<()>
    ensures { result ≡ answer (first (grant_causes available count list.now kept)) tt }
{
    count_causes(count, list)?;
    enough_causes(available, count, kept)
}

// 15 for a count above 64, 17 and 24: commit cost.
pub fn cost_causes(available: u32, count: u32, kept: u64) -> Answer<()>
    ensures { result ≡ answer (first (cost_causes available count kept)) tt }
{
    if Bitmap::COUNT < count {
        return Err(Error::CountRange);
    }
    enough_causes(available, count, kept)
}

// 15, 16 and 18: allocate extent, before it is looked for.
pub fn request_causes(blocks: u32, count: u32, near: u32, list: &[u32]) -> Answer<()>
    ensures { result ≡ answer (first (request_causes blocks count near list.now)) tt }
{
    count_causes(count, list)?;
    if blocks <= near {
        return Err(Error::BlockRange);
    }
    Ok(())
}

// 23: reserve.
pub fn room_causes(available: u32, kept: u64, reservation: u32) -> Answer<()>
    requires { kept < 2 ^ 36 }
    ensures { result ≡ answer (first (room_causes available (kept + reservation))) tt }
{
    if u64::from(available) < kept + u64::from(reservation) {
        return Err(Error::OverReserved);
    }
    Ok(())
}
