// What a `status` line prints behind its answer line: the counts of status.
#![tactic(auto)]

ghost use Rattle.std.specs.Prelude.{Some, OnOk, OnErr, ◌≡◌, ◌++◌, ◌∷◌, []};
ghost use Rattle.printing.specs.Waits.{Puts};
ghost use Rattle.inspect_counts.specs.Shown.{counts_text};

use model_types::answer::{Answer, Counts};
use printing::Output;
use std::fmt;
use std::fmt::Write;

// Counts to be printed.
#[derive(Clone, Copy)]
struct Shown(Counts);

impl fmt::Display for Shown {
    ghost output = { λ shown. Some (counts_text shown.0) };

    fn fmt<W: fmt::Write>(&self, f: &mut fmt::Formatter<W>) -> fmt::Result {
        let counts = self.0;
        write!(
            f,
            "allocated={} available={} allocating={} freeing={} held={} active={}",
            counts.allocated,
            counts.available,
            counts.allocating,
            counts.freeing,
            counts.held,
            counts.active
        )
    }
}

// Puts all six on a line.
pub fn put_counts(out: &mut Output, counts: Counts) -> fmt::Result
    ensures { OnOk result (Puts out.old (counts_text counts ++ 10 ∷ []) out.new) }
{
    let shown = Shown(counts);
    writeln!(out, "{shown}")
}

// Puts the counts that were answered, and nothing of a refusal.
pub fn put_answered(out: &mut Output, answer: Answer<Counts>)
    ensures { OnErr answer (out.new ≡ out.old) }
{
    let Ok(counts) = answer else {
        return;
    };
    // Putting text never fails: what can't be written is lost.
    let _ = put_counts(out, counts);
}
