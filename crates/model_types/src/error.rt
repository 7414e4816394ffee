// The causes of refusal of document 01's table, and of the jobs of document 02 that have landed, each with its number there.
ghost use Rattle.std.specs.Prelude.{◌≡◌};
ghost use Rattle.model_types.specs.Errors.{IsCode, code};

#[derive(Clone, Copy, Debug, PartialEq, Eq, Hash)]
pub enum Error {
    MemoryInvalid,
    DiskLength,
    DiskBlocks,
    DiskBitmap,
    DiskLog,
    DiskMismatch,
    BlocksRange,
    WorkPending,
    NothingPending,
    SlotRange,
    SlotBusy,
    SlotIdle,
    SlotPrecommitted,
    SlotNotPrecommitted,
    CountRange,
    ListShort,
    TooFewAvailable,
    BlockRange,
    BlockFree,
    BlockFreeing,
    LineMalformed,
    NoExtent,
    OverReserved,
    ReservedForOthers,
}

// The papers' number of the cause.
impl From<Error> for u32 {
    ghost from_gives = { IsCode };

    fn from(error: Error) -> u32 {
        match error {
            Error::MemoryInvalid => 1,
            Error::DiskLength => 2,
            Error::DiskBlocks => 3,
            Error::DiskBitmap => 4,
            Error::DiskLog => 5,
            Error::DiskMismatch => 6,
            Error::BlocksRange => 7,
            Error::WorkPending => 8,
            Error::NothingPending => 9,
            Error::SlotRange => 10,
            Error::SlotBusy => 11,
            Error::SlotIdle => 12,
            Error::SlotPrecommitted => 13,
            Error::SlotNotPrecommitted => 14,
            Error::CountRange => 15,
            Error::ListShort => 16,
            Error::TooFewAvailable => 17,
            Error::BlockRange => 18,
            Error::BlockFree => 19,
            Error::BlockFreeing => 20,
            Error::LineMalformed => 21,
            Error::NoExtent => 22,
            Error::OverReserved => 23,
            Error::ReservedForOthers => 24,
        }
    }
}

impl Error {
    // The same number.
    pub fn code(self) -> u32
        ensures { result ≡ code self }
    {
        self.into()
    }
}
