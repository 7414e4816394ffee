// The test program `inspect` (docs/TEST-LINES.md): bench lines, and further lines that damage what the calls are lent.
// It is a library so that several programs can be it, each with its own stored input and output.
#![tactic(auto)]

mod line;

use bench_line::MAX_LINES;
use inspect_lines::Lines;
use inspect_state::fixture::Fixture;
use line::answer;
use printing::Output;
use std::rt::Stdin;

// Answers the lines of the input.
fn answer_all(stdin: Stdin, out: &mut Output) {
    let mut fixture = Fixture::new();
    let mut lines = Lines::new(stdin);
    for number in 1..=MAX_LINES {
        let Some(line) = lines.next_line() else {
            break;
        };
        answer(line, number, &mut fixture, out);
    }
}

// The whole program.
pub fn main_loop(stdin: Stdin) {
    let mut out = Output::new();
    answer_all(stdin, &mut out);
    out.flush();
}
