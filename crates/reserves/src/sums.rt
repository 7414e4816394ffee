// Reservations added up. Eight of them may be any numbers of 32 bits, so the sums have 64.
ghost use Rattle.std.specs.Prelude.{◌≡◌, ◌-◌, ◌<◌, ltb};
ghost use Rattle.bitmap.specs.Sizes.{slot_count};
ghost use Rattle.model.specs.Rules.Reserves.{total_reserved, others_reserved};
ghost use Rattle.reserves.specs.Sums.{any_drawn};

use model_types::memory::Reserve;

// What all reservations add up to.
#[tactic(auto, using(crate::proofs::Laws::Sums::total_step, crate::proofs::Laws::Sums::total_end))]
pub fn total(reserves: &[Reserve; 8]) -> u64
    ensures { result ≡ total_reserved reserves.now }
{
    let mut sum = 0;
    for reserve in reserves {
        sum += u64::from(reserve.reservation);
    }
    sum
}

// What those of all slots but one add up to.
pub fn others(reserves: &[Reserve; 8], at: usize) -> u64
    requires { at < slot_count }
    ensures { result ≡ others_reserved reserves.now at }
{
    total(reserves) - u64::from(reserves[at].reservation)
}

// Whether a grant of so many of the available blocks would leave fewer than this sum.
pub fn leaves_fewer(available: u32, count: u32, sum: u64) -> bool
    ensures { result ≡ ltb (available - count) sum }
{
    u64::from(available.saturating_sub(count)) < sum
}

// Whether any slot has drawn on its reservation.
#[tactic(auto, unfolding(crate::specs::Sums::any_drawn))]
pub fn any_drawn(reserves: &[Reserve; 8]) -> bool
    ensures { result ≡ any_drawn reserves.now }
{
    reserves.iter().any(|reserve| 0 < reserve.drawn)
}
