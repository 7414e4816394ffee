// What is reserved for a slot after a grant to it, after its rollback and after its commit's end. In a valid memory neither number
// of a slot is above the blocks that a volume can have.
ghost use Rattle.std.specs.Prelude.{◌≡◌, ◌≤◌};
ghost use Rattle.bitmap.specs.Sizes.{max_count};
ghost use Rattle.model.specs.Rules.Reserves.{drawing, put_back, used_up};
ghost use Rattle.reserves.specs.Few.{Few};

use model_types::memory::Reserve;

// After a grant of so many blocks: the reservation is lowered by them, not below 0, and what it was lowered by is drawn.
#[tactic(auto, unfolding(model::specs::Rules::Reserves::drawing))]
pub fn draw(reserve: &mut Reserve, count: u32)
    requires few { Few reserve.old }
    requires count_le_max_count { count ≤ max_count }
    ensures { reserve.new ≡ drawing reserve.old count }
{
    let covered = reserve.reservation.min(count);
    reserve.reservation -= covered;
    reserve.drawn += covered;
}

// After the slot's rollback: what it has drawn is put back.
#[tactic(auto, unfolding(model::specs::Rules::Reserves::put_back, model::specs::Rules::Reserves::used_up))]
pub fn put_back(reserve: &mut Reserve)
    requires { Few reserve.old }
    ensures { reserve.new ≡ put_back reserve.old }
{
    reserve.reservation += reserve.drawn;
    use_up(reserve);
}

// After the slot's commit: what it has drawn is used up.
#[tactic(auto, unfolding(model::specs::Rules::Reserves::used_up))]
pub fn use_up(reserve: &mut Reserve)
    ensures { reserve.new ≡ used_up reserve.old }
{
    reserve.drawn = 0;
}
