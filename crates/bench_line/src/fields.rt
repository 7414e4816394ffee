// The fields of a line after "op=": the op's word, the slot and n.
ghost use Rattle.std.specs.Prelude.{◌≡◌, [], ◌∷◌, ◌++◌, Some};
ghost use Rattle.model.specs.Rules.Line.{ops, op_word, slot_field, parse_op, slot_number, number_field};
ghost use Rattle.bench_line.specs.Ops.{op_else};

use crate::number::number;
use model_types::line::{Line, Op};

// What stands after " n=": a number and the line's end.
#[tactic(auto, using(crate::proofs::Laws::Fields::n_laws))]
fn number_field(bytes: &[u8], op: Op, slot: u32) -> Option<Line>
    ensures { result ≡ number_field op slot (Some bytes.now) }
{
    let (n, rest) = number(bytes)?;
    if !rest.is_empty() {
        return None;
    }
    Some(Line { op, slot, n })
}

// What stands after " seat=": a number and the field n.
#[tactic(auto, using(crate::proofs::Laws::Fields::slot_laws))]
fn slot_number(bytes: &[u8], op: Op) -> Option<Line>
    ensures { result ≡ slot_number op (Some bytes.now) }
{
    let (slot, rest) = number(bytes)?;
    number_field(rest.strip_prefix(b" n=")?, op, slot)
}

// The call of op where its word, with " seat=" behind it, stands at the front, and other elsewhere.
#[tactic(auto, using(crate::proofs::Laws::Ops::word_laws))]
fn op_else(bytes: &[u8], op: Op, word: &[u8], other: Option<Line>) -> Option<Line>
    requires { word.now ≡ op_word op ++ slot_field }
    ensures { result ≡ op_else op bytes.now other }
{
    match bytes.strip_prefix(word) {
        Some(rest) => slot_number(rest, op),
        None => other,
    }
}

// What stands after "op=", for the ops whose words begin with c.
#[tactic(auto, unfolding(model::specs::Rules::Line::parse_op, crate::specs::Ops::op_else))]
fn parse_c(bytes: &[u8]) -> Option<Line>
    ensures { result ≡ parse_op (Op.Commit ∷ Op.Crash ∷ []) bytes.now }
{
    let cut = op_else(bytes, Op::Crash, b"cut seat=", None);
    op_else(bytes, Op::Commit, b"commit seat=", cut)
}

// What stands after "op=", for the ops whose words begin with f.
#[tactic(auto, unfolding(model::specs::Rules::Line::parse_op, crate::specs::Ops::op_else))]
fn parse_f(bytes: &[u8]) -> Option<Line>
    ensures { result ≡ parse_op (Op.Format ∷ Op.Deallocate ∷ []) bytes.now }
{
    let free = op_else(bytes, Op::Deallocate, b"free seat=", None);
    op_else(bytes, Op::Format, b"format seat=", free)
}

// What stands after "op=", for the ops whose words begin with s.
#[tactic(auto, unfolding(model::specs::Rules::Line::parse_op, crate::specs::Ops::op_else))]
fn parse_s(bytes: &[u8]) -> Option<Line>
    ensures { result ≡ parse_op (Op.Start ∷ Op.Store ∷ Op.Status ∷ []) bytes.now }
{
    let stat = op_else(bytes, Op::Status, b"stat seat=", None);
    let store = op_else(bytes, Op::Store, b"store seat=", stat);
    op_else(bytes, Op::Start, b"start seat=", store)
}

// What stands after "op=". The first letter of a word leaves three ops at most.
#[tactic(auto, using(crate::proofs::Laws::Ops::letter_laws), unfolding(model::specs::Rules::Line::ops, model::specs::Rules::Line::parse_op, crate::specs::Ops::op_else))]
pub(crate) fn parse_op(bytes: &[u8]) -> Option<Line>
    ensures { result ≡ parse_op ops bytes.now }
{
    match *bytes.first()? {
        b'a' => op_else(bytes, Op::Allocate, b"alloc seat=", None),
        b'c' => parse_c(bytes),
        b'd' => op_else(bytes, Op::Drop, b"drop seat=", None),
        b'f' => parse_f(bytes),
        b'o' => op_else(bytes, Op::Open, b"open seat=", None),
        b'p' => op_else(bytes, Op::Precommit, b"pre seat=", None),
        b'r' => op_else(bytes, Op::Revoke, b"revoke seat=", None),
        b's' => parse_s(bytes),
        _ => None,
    }
}
