// A script of calls, as `make speed` makes them (docs/SPEED.md): a head of three numbers of four bytes each, then six bytes a step,
// which call, its slot, and n and near of two bytes each.
#![tactic(auto)]

ghost use Rattle.std.specs.Prelude.{◌≡◌, ◌+◌, ◌<◌, length};
ghost use Rattle.script.specs.Script.{IsCall, two_bytes, four_bytes};

// The calls, numbered from 1 in this order.
#[derive(Clone, Copy, Debug, PartialEq, Eq, Hash)]
pub enum Call {
    Format,
    Open,
    Start,
    Allocate,
    AllocateExtent,
    Deallocate,
    Precommit,
    Commit,
    Drop,
    Revoke,
    Store,
    Status,
    CommitCost,
    Reserve,
}

// A number that is no call's.
#[derive(Clone, Copy, Debug, PartialEq, Eq, Hash)]
pub struct NoCall(pub u8);

impl TryFrom<u8> for Call {
    type Error = NoCall;

    ghost try_from_gives = { IsCall };

    fn try_from(number: u8) -> Result<Self, NoCall> {
        match number {
            1 => Ok(Call::Format),
            2 => Ok(Call::Open),
            3 => Ok(Call::Start),
            4 => Ok(Call::Allocate),
            5 => Ok(Call::AllocateExtent),
            6 => Ok(Call::Deallocate),
            7 => Ok(Call::Precommit),
            8 => Ok(Call::Commit),
            9 => Ok(Call::Drop),
            10 => Ok(Call::Revoke),
            11 => Ok(Call::Store),
            12 => Ok(Call::Status),
            13 => Ok(Call::CommitCost),
            14 => Ok(Call::Reserve),
            _ => Err(NoCall(number)),
        }
    }
}

// The number that two bytes of a script are, the lower one first. The place comes with the bytes: what stands where is the script's
// form.
pub fn pair(script: &[u8], at: usize) -> u32
    requires { at + 1 < length script.now }
    ensures is { result ≡ two_bytes script.now at }
    ensures fits { result < 65536 }
{
    u32::from(u16::from_le_bytes([script[at], script[at + 1]]))
}

// The number that four bytes are.
pub fn four(script: &[u8], at: usize) -> u32
    requires { at + 3 < length script.now }
    ensures { result ≡ four_bytes script.now at }
{
    u32::from_le_bytes([script[at], script[at + 1], script[at + 2], script[at + 3]])
}
