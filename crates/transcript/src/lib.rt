// The whole of PanelRights but for reading and writing: from the bytes of an input to the bytes that are printed.
#![tactic(auto)]

ghost use Rattle.std.specs.Prelude.{◌≡◌, ◌≤◌, length};
ghost use Rattle.output.specs.Buffer.{laid, place_behind, as_written, written_of, buffer_of};
ghost use Rattle.state.specs.Site.{verdict};
ghost use Rattle.state.specs.Stands.{site};
ghost use Rattle.sessions.specs.Session.{obeyed};
ghost use Rattle.transcript.specs.Transcript.{result_line, result_lines, spaced, state_line, session_text};
ghost use Rattle.transcript.specs.Transcript.{transcript_of, most_printed};
ghost use Rattle.transcript.specs.Obeying.{Told};

use instructions::Bytes;
use lines::First;
use state::State;
use verdicts::Refusal;

// An input of more bytes is too long.
pub const MOST_READ: usize = 65536;

// No transcript has more bytes.
pub const MOST_PRINTED: usize = 589865;

// How many lines an input has, and the state after them.
#[derive(Drop)]
struct Ending {
    pub lines: usize,
    pub state: State,
}

// The result of line k.
fn put_line(out: &mut [u8], at: usize, k: usize, answer: u8) -> usize
    ensures place { result ≡ place_behind at (result_line k answer) }
    ensures buffer { out.new ≡ laid (result_line k answer) at out.old }
{
    let behind_k = output::put_decimal(out, at, k);
    let behind_result = output::put_spaced(out, behind_k, answer as usize);
    output::put(out, behind_result, b'\n')
}

// The results of a session's lines.
fn put_lines(out: &mut [u8], at: usize, results: &[u8]) -> usize
    ensures place { result ≡ place_behind at (result_lines 1 results.now) }
    ensures buffer { out.new ≡ laid (result_lines 1 results.now) at out.old }
{
    let mut end = at;
    for (i, result) in results.iter().enumerate() {
        end = put_line(out, end, i + 1, *result);
    }
    end
}

// A space and a number, for each of them.
fn put_counts(out: &mut [u8], at: usize, counts: &[usize]) -> usize
    ensures place { result ≡ place_behind at (spaced counts.now) }
    ensures buffer { out.new ≡ laid (spaced counts.now) at out.old }
{
    let mut end = at;
    for count in counts {
        end = output::put_spaced(out, end, *count);
    }
    end
}

// `state` and the counts.
fn put_state(out: &mut [u8], at: usize, counts: &[usize]) -> usize
    ensures place { result ≡ place_behind at (state_line counts.now) }
    ensures buffer { out.new ≡ laid (state_line counts.now) at out.old }
{
    let behind_word = output::put_text(out, at, b"state");
    let behind_counts = put_counts(out, behind_word, counts);
    output::put(out, behind_counts, b'\n')
}

// A session's results and counts.
fn put_session(out: &mut [u8], results: &[u8], counts: &[usize]) -> usize
    ensures place { result ≡ place_behind 0 (session_text results.now counts.now) }
    ensures buffer { out.new ≡ laid (session_text results.now counts.now) 0 out.old }
{
    let behind_lines = put_lines(out, 0, results);
    put_state(out, behind_lines, counts)
}

// Obeys a line, and answers its result: 0, or the number of the refusal. It is a byte and no Result, since a result is
// kept and printed as one.
fn obey_line(s: &mut State, line: Option<Bytes>) -> u8
    ensures { verdict result (site s.new) ≡ obeyed (site s.old) line }
{
    let Some(bytes) = line else {
        return Refusal::UnreadableLine.number();
    };
    match machine::step(s, bytes) {
        Ok(()) => 0,
        Err(refusal) => refusal.number(),
    }
}

// Obeys the lines of the input, from the founding state on, and writes the result of each.
fn obey_lines(input: &[u8], results: &mut [u8]) -> Ending
    requires { length input.now ≤ length results.old }
    ensures { Told input.now results.new result.lines (site result.state) }
{
    let mut s = State::founding();
    let mut lines = 0;
    let mut rest = input;
    // How far a line goes is known once it is read, and how many there are is part of the answer: so they are counted.
    while !rest.is_empty() {
        let First { line, size } = lines::first_line(rest);
        results[lines] = obey_line(&mut s, line);
        lines += 1;
        rest = &rest[size..];
    }
    Ending { lines, state: s }
}

// Writes a session's results and counts, or nothing where the buffer is too short: they are counted first.
fn write_session(results: &[u8], counts: &[usize], output: &mut [u8]) -> Result<usize, Refusal>
    requires { length (session_text results.now counts.now) ≤ most_printed }
    ensures written { as_written result ≡ written_of (session_text results.now counts.now) output.old }
    ensures buffer { output.new ≡ buffer_of (session_text results.now counts.now) output.old }
{
    let length = put_session(&mut [], results, counts);
    if output.len() < length {
        return Err(Refusal::BufferLength);
    }
    put_session(output, results, counts);
    Ok(length)
}

// Writes what PanelRights prints for the input, and answers how many bytes that is; or nothing where the buffer is too
// short.
pub fn write(input: &[u8], output: &mut [u8]) -> Result<usize, Refusal>
    ensures written { as_written result ≡ written_of (transcript_of input.now) output.old }
    ensures buffer { output.new ≡ buffer_of (transcript_of input.now) output.old }
{
    if MOST_READ < input.len() {
        return output::write_text(b"too long\n", output);
    }
    // As many results as an input can have lines; nothing here asks for memory.
    let mut results = [0u8; MOST_READ];
    let ending = obey_lines(input, &mut results);
    let counts = counts::counts(&ending.state);
    write_session(&results[..ending.lines], &counts, output)
}

// The same into a buffer that no transcript is too long for; the answer is how many bytes were written. `within` is
// what a caller needs for that part of the buffer.
pub fn print(input: &[u8], output: &mut [u8; MOST_PRINTED]) -> usize
    ensures count { result ≡ length (transcript_of input.now) }
    ensures within { result ≤ length output.new }
    ensures buffer { output.new ≡ buffer_of (transcript_of input.now) output.old }
{
    write(input, output).unwrap_or(0)
}
