// Bytes put into a slice.
ghost use Rattle.std.specs.Prelude.{◌+◌, ◌≤◌, ◌++◌, length};
ghost use Rattle.model.specs.Rules.Line.{decimal};
ghost use Rattle.bench_answer.specs.Put.{Put, max_decimal};

// Puts word into out from index at on, and returns the index after it. The rest of out is unchanged. Not by `Output` of the crate
// printing, which says less: there what waits may be written at any time, here it stays in place until the piece is done.
pub(crate) fn put_bytes(out: &mut [u8], at: usize, word: &[u8]) -> usize
    requires { at + length word.now ≤ length out.old }
    ensures { Put out.old at word.now out.new result }
{
    let next = at + word.len();
    out[at..next].copy_from_slice(word);
    next
}

// Puts n's decimal digits into out from index at on, and returns the index after them. The rest of
// out is unchanged. By hand, since `io::decimal` has an array of its own, copied here for each number, and other words for the
// digits than the answer line's; by recursion, since the last digit is found first.
#[tactic(auto, using(crate::proofs::Laws::Decimal::decimal_laws))]
fn put_decimal(out: &mut [u8], at: usize, n: u32) -> usize
    requires { at + length (decimal n) ≤ length out.old }
    ensures { Put out.old at (decimal n) out.new result }
{
    if n < 10 {
        out[at] = b'0' + n as u8;
        return at + 1;
    }
    let last = put_decimal(out, at, n / 10);
    out[last] = b'0' + (n % 10) as u8;
    last + 1
}

// Puts name and n's decimal digits into out from index at on, and returns the index after them. The
// rest of out is unchanged.
#[tactic(auto, using(crate::proofs::Laws::Decimal::room_laws))]
pub(crate) fn put_field(out: &mut [u8], at: usize, name: &[u8], n: u32) -> usize
    requires { at + length name.now + max_decimal ≤ length out.old }
    ensures { Put out.old at (name.now ++ decimal n) out.new result }
{
    let after_name = put_bytes(out, at, name);
    put_decimal(out, after_name, n)
}
