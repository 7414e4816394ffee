// A piece of input: the lines that end in it are answered, and the bytes behind the last of them are kept.
ghost use Rattle.std.specs.Prelude.{◌≡◌, ◌&&◌, [], ◌+◌, ◌*◌, ◌≤◌, leb, ltb, length, take};
ghost use Rattle.model.specs.Rules.Bench.{max_lines};
ghost use Rattle.bench_answer.specs.Put.{max_answer};
ghost use Rattle.bench_state.specs.Keep.{kept_room};
ghost use Rattle.bench_piece.specs.Piece.{run_state, LineEnded, PieceRun, LastLine};

use bench_line::MAX_LINES;
use bench_state::keep::keep;
use bench_state::run::Run;
use bench_step::cut::line_end;
use bench_step::lines::answer_lines;

// Answers the line that is kept, as if byte 10 ended it, and gives the end of what is printed.
fn answer_kept(run: &mut Run, disk: &mut [u32], out: &mut [u8]) -> usize
    requires { max_answer * kept_room ≤ length out.old }
    ensures { LineEnded (run_state [] run.old disk.old) run.new disk.new result out.new }
{
    let len = run.len;
    run.line[len] = b'\n';
    let lines = answer_lines(
        &run.line[..len + 1],
        run.number,
        &mut run.memory,
        disk,
        out,
        0,
    );
    run.number = lines.number;
    run.len = 0;
    lines.at
}

// Answers the lines behind that one, whose answer ends at index at, and gives the end of what is printed.
fn answer_rest(input: &[u8], run: &mut Run, disk: &mut [u32], out: &mut [u8], at: usize) -> usize
    requires none_kept { run.old.len ≡ 0 }
    requires input_in_bounds { at + max_answer * length input.now ≤ length out.old }
    ensures { PieceRun (run_state (take at out.old) run.old disk.old) input.now run.new disk.new result out.new }
{
    let lines = answer_lines(input, run.number, &mut run.memory, disk, out, at);
    run.number = lines.number;
    run.len = keep(&input[lines.rest..], &mut run.line, 0);
    lines.at
}

// Answers the lines that end in a piece of input, keeps the bytes behind the last of them, and gives the end of what is
// printed. There has to be room for an answer to each byte of the piece and of the line that is kept.
pub fn run_piece(input: &[u8], run: &mut Run, disk: &mut [u32], out: &mut [u8]) -> usize
    requires { max_answer * (kept_room + length input.now) ≤ length out.old }
    ensures { PieceRun (run_state [] run.old disk.old) input.now run.new disk.new result out.new }
{
    let end = line_end(input, 0);
    run.len = keep(&input[..end], &mut run.line, run.len);
    if end == input.len() {
        return 0;
    }
    let at = answer_kept(run, disk, out);
    answer_rest(&input[end + 1..], run, disk, out, at)
}

// Whether more is to be read behind a piece: not at the input's end, nor past the last line.
pub fn reads_on(input: &[u8], run: &Run) -> bool
    ensures { result ≡ (ltb 0 (length input.now) && leb run.now.number max_lines) }
{
    !input.is_empty() && run.number <= MAX_LINES
}

// Answers a last line that no byte 10 ends, and gives the end of what is printed.
#[tactic(auto, using(crate::proofs::Laws::Line::last_steps))]
pub fn last_line(run: &mut Run, disk: &mut [u32], out: &mut [u8]) -> usize
    requires { max_answer * kept_room ≤ length out.old }
    ensures { LastLine (run_state [] run.old disk.old) result out.new }
{
    if run.len == 0 {
        return 0;
    }
    answer_kept(run, disk, out)
}
