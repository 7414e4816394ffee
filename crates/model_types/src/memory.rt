// The allocator's memory: three kinds of bitmap, the cursor, what is reserved, and the pending work.
ghost use Rattle.std.specs.Prelude.{◌≡◌, ◌≤◌};
ghost use Rattle.bitmap.specs.Sizes.{bitmap_words, IsSlot};
ghost use Rattle.model_types.specs.Memory.{
  memory_of,
  quiet_memory,
  zero_memory,
  idle_slot,
  slot_of,
  no_reserve,
  reserve_of,
  with_pending,
  is_active,
  is_precommitted,
};
ghost use Rattle.model_types.specs.Pending.{stores_for, changed_for, is_nothing, owner_of};

use bitmap::Bitmap;

// A slot (document 01: seat) is idle, open or precommitted.
#[derive(Clone, Copy, Debug, PartialEq, Eq, Hash)]
pub enum SlotState {
    Idle,
    Open,
    Precommitted,
}

// A transaction slot: its bitmap, TAM, and its state. An idle slot's bitmap is empty.
#[derive(Clone, Copy)]
pub struct Slot {
    pub tam: Bitmap,
    pub state: SlotState,
}

// What is set aside for a slot, its reservation (document 02: its claim), and what of it the slot's transaction has drawn. It
// stands beside the slot, since an idle slot may have a reservation.
#[derive(Clone, Copy, Debug, PartialEq, Eq, Hash)]
pub struct Reserve {
    pub reservation: u32,
    pub drawn: u32,
}

// Pending work (document 01: the store work in hand).
#[derive(Clone, Copy, Debug, PartialEq, Eq, Hash)]
pub enum Pending {
    Nothing,
    Commit { slot: u32, done: u32, due: u32 },
    Recovery { done: u32, due: u32 },
}

// The memory: the block count m, the cursor (the block to be searched first), SAM, COM, the eight slots, what is reserved for
// each, and the pending work.
#[derive(Clone, Copy)]
pub struct Memory {
    pub blocks: u32,
    pub cursor: u32,
    pub sam: Bitmap,
    pub com: Bitmap,
    pub slots: [Slot; 8],
    pub reserves: [Reserve; 8],
    pub pending: Pending,
}

impl SlotState {
    // Whether a slot isn't idle.
    pub fn is_active(self) -> bool
        ensures { result ≡ is_active self }
    {
        self != SlotState::Idle
    }

    // Whether a slot is precommitted.
    pub fn is_precommitted(self) -> bool
        ensures { result ≡ is_precommitted self }
    {
        self == SlotState::Precommitted
    }
}

impl Slot {
    // The one place in the code that writes a whole slot.
    pub fn new(state: SlotState, tam: Bitmap) -> Slot
        ensures { result ≡ slot_of state tam }
    {
        Slot { tam, state }
    }

    // An idle slot, its bitmap empty.
    pub fn idle() -> Slot
        ensures { result ≡ idle_slot }
    {
        Slot::new(SlotState::Idle, Bitmap::EMPTY)
    }
}

impl Reserve {
    // The one place in the code that writes a whole reserve.
    pub fn new(reservation: u32, drawn: u32) -> Reserve
        ensures { result ≡ reserve_of reservation drawn }
    {
        Reserve { reservation, drawn }
    }

    // Nothing set aside, nothing drawn.
    pub fn none() -> Reserve
        ensures { result ≡ no_reserve }
    {
        Reserve::new(0, 0)
    }
}

impl Memory {
    // The one place in the code that writes a whole memory.
    pub fn new(
        blocks: u32,
        cursor: u32,
        sam: Bitmap,
        com: Bitmap,
        slots: [Slot; 8],
        reserves: [Reserve; 8],
        pending: Pending,
    ) -> Memory
        ensures { result ≡ memory_of blocks cursor sam «com» slots reserves pending }
    {
        Memory {
            blocks,
            cursor,
            sam,
            com,
            slots,
            reserves,
            pending,
        }
    }

    // A volume with all slots idle, COM equal to SAM, to be searched from block 0 on, with nothing reserved.
    pub fn quiet(blocks: u32, sam: Bitmap, pending: Pending) -> Memory
        ensures { result ≡ quiet_memory blocks sam pending }
    {
        let slots = [Slot::idle(); 8];
        let reserves = [Reserve::none(); 8];
        Memory::new(blocks, 0, sam, sam, slots, reserves, pending)
    }

    // The memory of zeros. It isn't valid.
    pub fn zero() -> Memory
        ensures { result ≡ zero_memory }
    {
        Memory::quiet(0, Bitmap::EMPTY, Pending::Nothing)
    }

    // The same memory with another pending work.
    pub fn with_pending(self, pending: Pending) -> Memory
        ensures { result ≡ with_pending self pending }
    {
        let Memory {
            blocks,
            cursor,
            sam,
            com,
            slots,
            reserves,
            ..
        } = self;
        Memory::new(blocks, cursor, sam, com, slots, reserves, pending)
    }
}

impl Pending {
    // Whether no work is pending.
    #[tactic(auto, unfolding(crate::specs::Pending::is_nothing))]
    pub fn is_nothing(self) -> bool
        ensures { result ≡ is_nothing self }
    {
        matches!(self, Pending::Nothing)
    }

    // The slot of a commit, and 0 where there is none.
    #[tactic(auto, unfolding(crate::specs::Pending::owner_of))]
    pub fn owner(self) -> usize
        ensures { IsSlot (owner_of self) result }
    {
        match self {
            Pending::Commit { slot, .. } => Bitmap::slot_index(slot),
            Pending::Nothing | Pending::Recovery { .. } => 0,
        }
    }

    // The stores of a commit that changes so many words.
    pub fn stores_for(changed: u32) -> u32
        requires { changed ≤ bitmap_words }
        ensures { result ≡ stores_for changed }
    {
        3 * changed + 2
    }

    // The words that a commit with so many stores changes.
    pub fn changed_for(due: u32) -> u32
        requires { 2 ≤ due }
        ensures { result ≡ changed_for due }
    {
        (due - 2) / 3
    }
}
