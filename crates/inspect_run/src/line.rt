// One line of input to its answer line.
use inspect_call::call;
use inspect_counts::put_answered;
use inspect_further::alter;
use inspect_show::put_fixture;
use inspect_state::fixture::Fixture;
use model_types::answer::number;
use model_types::error::Error;
use printing::Output;
use status::status;

// A bench line is a call, and any other a further line.
fn step(line: &[u8], fixture: &mut Fixture) -> Result<u32, Error> {
    if let Some(asked) = bench_line::parse(line) {
        return call(asked, fixture);
    }
    match further_line::parse(line) {
        Some(further) => alter(further, fixture),
        None => Err(Error::LineMalformed),
    }
}

// Puts an answer line.
fn put_answer(out: &mut Output, call: u32, answer: Result<u32, Error>) {
    let mut line = [0u8; 64];
    let end = bench_answer::print_answer(&mut line, 0, call, number(answer), answer.unwrap_or(0));
    out.put(&line[..end]);
}

// Answers a `status` line: as the bench line of status, and all counts behind it.
fn answer_status(number: u32, fixture: &Fixture, out: &mut Output) {
    let answer = status(&fixture.memory);
    put_answer(out, number, answer.map(|counts| counts.allocated));
    put_answered(out, answer);
}

// Answers a `show` line: as done, and the whole fixture behind it.
fn answer_show(number: u32, fixture: &Fixture, out: &mut Output) {
    put_answer(out, number, Ok(0));
    put_fixture(out, fixture);
}

// Answers a line.
pub(crate) fn answer(line: &[u8], number: u32, fixture: &mut Fixture, out: &mut Output) {
    match line {
        b"status" => answer_status(number, fixture, out),
        b"show" => answer_show(number, fixture, out),
        _ => put_answer(out, number, step(line, fixture)),
    }
}
