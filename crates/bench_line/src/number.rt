// A number at the front of some bytes.
ghost use Rattle.std.specs.Prelude.{◌≡◌, false, MatchOption};
ghost use Rattle.std.specs.List.{prefix_len};
ghost use Rattle.model.specs.Rules.Line.{is_digit, digits, digits_in_form};
ghost use Rattle.bench_line.specs.Number.{NumberRead};

// The most digits of a number.
const MAX_DIGITS: usize = 5;

// How many digits stand at the front.
#[tactic(auto, unfolding(model::specs::Rules::Line::is_digit))]
fn digits_len(bytes: &[u8]) -> usize
    ensures { result ≡ prefix_len is_digit bytes.now }
{
    bytes
        .iter()
        .take_while(|byte| byte.is_ascii_digit())
        .count()
}

// The number of all digits that stand at the front, 1 to MAX_DIGITS of them, and what follows it. Added up digit by digit, as the
// definition goes: `parse` takes text alone, and its number is told by another definition.
#[tactic(auto, using(crate::proofs::Laws::Digits::number_steps))]
pub(crate) fn number(bytes: &[u8]) -> Option<(u32, &[u8])>
    ensures { MatchOption result (digits_in_form (digits 0 0 bytes.now) ≡ false) (λ read. NumberRead bytes.now read.0 read.1.now) }
{
    let len = digits_len(bytes);
    if len == 0 || len > MAX_DIGITS {
        return None;
    }
    let mut value = 0;
    for byte in &bytes[..len] {
        value = 10 * value + u32::from(*byte - b'0');
    }
    Some((value, &bytes[len..]))
}
