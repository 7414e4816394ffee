// The bench program's input: a line taken apart.
#![tactic(auto)]

mod fields;
mod number;

ghost use Rattle.std.specs.Prelude.{◌≡◌};
ghost use Rattle.model.specs.Rules.Line.{parse_line};

use fields::parse_op;
use model_types::line::Line;

// The most lines that are read.
pub const MAX_LINES: u32 = 60000;
// The most bytes of a line.
const MAX_LINE: usize = 64;

// A line, without the byte 10 that ends it, taken apart; none that isn't in form.
#[tactic(auto, using(crate::proofs::Laws::Line::line_laws))]
pub fn parse(line: &[u8]) -> Option<Line>
    ensures { result ≡ parse_line line.now }
{
    if line.len() > MAX_LINE {
        return None;
    }
    parse_op(line.strip_prefix(b"op=")?)
}
