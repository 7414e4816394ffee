// A valid memory after its next store: one more is done, or the work ends.
ghost use Rattle.std.specs.Prelude.{◌≡◌, true, false};
ghost use Rattle.model_types.specs.Pending.{is_nothing};
ghost use Rattle.model.specs.Rules.Pending.{one_more_done, finished};
ghost use Rattle.model.specs.Rules.Valid.{valid};
ghost use Rattle.model.specs.Rules.Calls.Store.{still_due, advanced};
ghost use Rattle.store.specs.Progress.{StoreLeft};
ghost use Rattle.model_types.specs.Shape.{HasShape};

use ending::refresh;
use model_types::memory::{Memory, Pending};
use reserves::change::use_up;

// The stores still due after the next one.
#[tactic(auto, unfolding(model::specs::Rules::Calls::Store::still_due, model::specs::Rules::Pending::stores_done, model::specs::Rules::Pending::stores_due))]
fn still_due(pending: Pending) -> u32
    requires { StoreLeft pending }
    ensures { result ≡ still_due pending }
{
    match pending {
        Pending::Nothing => 0,
        Pending::Commit { done, due, .. } | Pending::Recovery { done, due } => due - (done + 1),
    }
}

// The work with one more store done.
#[tactic(auto, unfolding(model::specs::Rules::Pending::stores_done, model::specs::Rules::Pending::stores_due, model::specs::Rules::Pending::one_more_done))]
fn one_more_done(pending: Pending) -> Pending
    requires { StoreLeft pending }
    ensures { result ≡ one_more_done pending }
{
    match pending {
        Pending::Nothing => Pending::Nothing,
        Pending::Commit { slot, done, due } => Pending::Commit {
            slot,
            done: done + 1,
            due,
        },
        Pending::Recovery { done, due } => Pending::Recovery {
            done: done + 1,
            due,
        },
    }
}

// That the memory is valid is a clause here and in step.rt: a type for it would have to be made again at each write.

// The last store ends the work. With a commit's its slot's TAM becomes SAM, and what the slot has drawn is used up.
#[tactic(auto, using(crate::proofs::Laws::Work::commit_below))]
fn finish(memory: &mut Memory)
    requires shape { HasShape memory.old }
    requires sound { valid memory.old ≡ true }
    ensures { memory.new ≡ finished memory.old memory.old.pending }
{
    if let Pending::Commit { slot, .. } = memory.pending {
        let at = slot as usize;
        let new = memory.slots[at].tam;
        refresh(&mut memory.slots, at, &memory.sam.words, &new.words);
        memory.sam = new;
        use_up(&mut memory.reserves[at]);
    }
    memory.pending = Pending::Nothing;
}

// Makes the memory what it is after the next store. Gives the stores still due.
#[tactic(auto, using(crate::proofs::Laws::Work::left, crate::proofs::Laws::Next::last_store, crate::proofs::Laws::Next::other_store))]
pub fn advance(memory: &mut Memory) -> u32
    requires shape { HasShape memory.old }
    requires sound { valid memory.old ≡ true }
    requires pending { is_nothing memory.old.pending ≡ false }
    ensures gives { result ≡ still_due memory.old.pending }
    ensures leaves { memory.new ≡ advanced memory.old memory.old.pending }
{
    let pending = memory.pending;
    let due = still_due(pending);
    if due == 0 {
        finish(memory);
    } else {
        memory.pending = one_more_done(pending);
    }
    due
}
