// The C interface, which include/panelrights.h declares: numbers and byte slices. Each function takes a record apart,
// where it is handed one, and calls one function of a crate below that decides; no rule stands here. What that one
// answers crosses as a number.
#![tactic(auto)]

ghost use Rattle.std.specs.Prelude.{◌+◌, ◌*◌, ◌≡◌};
ghost use Rattle.verdicts.specs.Refusals.{refusal_number};
ghost use Rattle.records.specs.Record.{record_size, number_for};
ghost use Rattle.instructions.specs.Instructions.{four_bytes};
ghost use Rattle.marks.specs.Marks.{lowest};
ghost use Rattle.machine.specs.Step.{as_reply};
ghost use Rattle.reasons.specs.Explanation.{as_explanation};
ghost use Rattle.reasons.specs.Lost.{as_reason};
ghost use Rattle.label_finder.specs.Finder.{place_or_front};
ghost use Rattle.interface.specs.Interface.{founding_buffer, step_number, step_buffer, answer_of, access_number};
ghost use Rattle.interface.specs.Interface.{call_of, recipe_answer, recipe_buffer, file_number, file_buffer};
ghost use Rattle.interface.specs.Interface.{label_number, block_number, place_number, write_answer, write_buffer};
ghost use Rattle.interface.specs.Interface.{explanation_code, explain_answer, explain_buffer, lost_code, reason_code};
ghost use Rattle.interface.specs.Interface.{explain_step_answer};

use instructions::Bytes;
use label_finder::Place;
use reasons::{Entry, Explained, Lost, StepRefused};
use recipes::Call;
use state::State;
use verdicts::Refusal;

// The number that stands for what may be refused: the refusal's, or 0.
fn number_of(answer: Result<(), Refusal>) -> u8
    ensures { result ≡ refusal_number answer }
{
    match answer {
        Ok(()) => 0,
        Err(refusal) => refusal.number(),
    }
}

// How many bytes the record of a state has.
#[unsafe(no_mangle)]
pub extern "C" fn panelrights_state_bytes() -> usize
    ensures { result ≡ record_size }
{
    records::SIZE
}

// Writes the record of the founding state: 0; or 31 and no byte written, if the buffer has another length.
#[unsafe(no_mangle)]
pub extern "C" fn panelrights_founding(state: &mut [u8]) -> u8
    ensures number { result ≡ number_for state.old }
    ensures buffer { state.new ≡ founding_buffer state.old }
{
    number_of(record_writer::write(&State::founding(), state))
}

// Obeys one instruction: 0 and the state after it in place, or the refusal and no byte changed. Bytes that are no
// record are the state of nothing, which is not sound: 12. Where it is accepted, what it changes is written, and no
// more.
#[unsafe(no_mangle)]
pub extern "C" fn panelrights_step(state: &mut [u8], code: u8, activator: u8, a: u8, b: u8) -> u8
    ensures number { result ≡ step_number state.old (four_bytes code activator a b) }
    ensures buffer { state.new ≡ step_buffer state.old (four_bytes code activator a b) }
{
    let four = Bytes {
        code,
        activator,
        a,
        b,
    };
    if let Err(refusal) = machine::check(&record_reader::state_of(state), four) {
        return refusal.number();
    }
    record_changes::change(state, four);
    0
}

// Obeys a recipe, entirely or not at all: 0 and the state after it in place, or place * 256 + number and no byte
// changed.
#[unsafe(no_mangle)]
pub extern "C" fn panelrights_recipe<'a>(
    state: &'a mut [u8],
    recipe: &'a [u8],
    activator: u8,
    p0: u8,
    p1: u8,
    p2: u8,
    p3: u8,
) -> u16
    ensures number { result
        ≡ recipe_answer state.old recipe.now (call_of activator p0 p1 p2 p3) }
    ensures buffer { state.new
        ≡ recipe_buffer state.old recipe.now (call_of activator p0 p1 p2 p3) }
{
    let call = Call {
        activator,
        parameters: [p0, p1, p2, p3],
    };
    let mut s = record_reader::state_of(state);
    if let Err(refused) = recipes::obey(&mut s, recipe, call) {
        return refused.place as u16 * 256 + refused.refusal.number() as u16;
    }
    number_of(record_writer::write(&s, state)) as u16
}

// The number that stands for a reply: the steps, 255 for no access, or 256 + n for refusal n.
fn answer_of(reply: Result<Option<u8>, Refusal>) -> u16
    ensures { result ≡ answer_of (as_reply reply) }
{
    match reply {
        Ok(Some(steps)) => steps as u16,
        Ok(None) => 255,
        Err(refused) => 256 + refused.number() as u16,
    }
}

// In how many steps has the area access to the object? 255 for no access, 256 + n for refusal n.
#[unsafe(no_mangle)]
pub extern "C" fn panelrights_access(state: &[u8], area: u32, object: u32) -> u16
    ensures { result ≡ access_number state.now area object }
{
    answer_of(machine::ask(&record_reader::state_of(state), area, object))
}

// The number that stands for an explanation: how many bytes the chain has, 512 + those of the counts, or 256 + n for
// refusal n.
fn explanation_code(explanation: Result<Explained, Refusal>) -> u16
    ensures { result ≡ explanation_code (as_explanation explanation) }
{
    match explanation {
        Ok(Explained::Chain(count)) => count as u16,
        Ok(Explained::Counts(count)) => 512 + count as u16,
        Err(refusal) => 256 + refusal.number() as u16,
    }
}

// Why has the area access to the object, or none? The chain or the counts are written from the front of the buffer.
#[unsafe(no_mangle)]
pub extern "C" fn panelrights_explain<'a>(
    state: &'a [u8],
    area: u32,
    object: u32,
    buffer: &'a mut [u8],
) -> u16
    ensures number { result ≡ explain_answer state.now area object buffer.old }
    ensures buffer { buffer.new
        ≡ explain_buffer state.now area object buffer.old }
{
    let s = record_reader::state_of(state);
    explanation_code(explain::explain(&s, area, object, buffer))
}

// An object and an area in the two highest bytes of a number.
fn entry_code(entry: Entry) -> u32
    ensures { result ≡ 65536 * entry.object + 16777216 * entry.area }
{
    65536 * entry.object as u32 + 16777216 * entry.area as u32
}

// The number that stands for a pair that is lost: 1 for an import, 2 for an export in the byte below; 0 for none.
fn lost_code(lost: Option<Lost>) -> u32
    ensures { result ≡ lost_code lost }
{
    match lost {
        None => 0,
        Some(Lost::Import(entry)) => 256 + entry_code(entry),
        Some(Lost::Export(entry)) => 512 + entry_code(entry),
    }
}

// The number that stands for why an instruction is refused: 0 for one that is not.
fn reason_code(reason: Result<(), StepRefused>) -> u32
    ensures { result ≡ reason_code (as_reason reason) }
{
    match reason {
        Ok(()) => 0,
        Err(refused) => refused.refusal.number() as u32 + lost_code(refused.lost),
    }
}

// Why is the instruction refused? Its number, and for 11 the first pair whose area would lack access.
#[unsafe(no_mangle)]
pub extern "C" fn panelrights_explain_step(
    state: &[u8],
    code: u8,
    activator: u8,
    a: u8,
    b: u8,
) -> u32
    ensures { result ≡ explain_step_answer state.now (four_bytes code activator a b) }
{
    let four = Bytes {
        code,
        activator,
        a,
        b,
    };
    reason_code(explain::explain_step(&record_reader::state_of(state), four))
}

// Reads a site file: 0 and its state, or 21 to 29 and the founding state; 31 and no byte written, if the state's buffer
// has another length than a record.
#[unsafe(no_mangle)]
pub extern "C" fn panelrights_read_file<'a>(file: &'a [u8], state: &'a mut [u8]) -> u8
    ensures number { result ≡ file_number file.now state.old }
    ensures buffer { state.new ≡ file_buffer file.now state.old }
{
    match site_file::read(file) {
        Ok(s) => number_of(record_writer::write(&s, state)),
        Err(refused) => {
            let written = record_writer::write(&refused.state, state);
            number_of(written.and(Err(refused.refusal)))
        }
    }
}

// The number that stands for a place in a file: offset * 65536 + length, 0 for none.
fn place_number(place: Option<Place>) -> u32
    ensures { result ≡ place_number (place_or_front place) }
{
    match place {
        Some(place) => place.at as u32 * 65536 + place.length as u32,
        None => 0,
    }
}

// Where the text of the area's label stands in the file: offset * 65536 + length, 0 if there is none.
#[unsafe(no_mangle)]
pub extern "C" fn panelrights_label(file: &[u8], area: u32) -> u32
    ensures { result ≡ label_number file.now area }
{
    place_number(label_finder::label_place(file, area))
}

// Where the label block of the file stands: offset * 65536 + length, 0 if the file is refused.
#[unsafe(no_mangle)]
pub extern "C" fn panelrights_labels(file: &[u8]) -> u32
    ensures { result ≡ block_number file.now }
{
    place_number(label_finder::block_place(file))
}

// Writes the site file of the state and its labels into the buffer: the length; or 65536 + n for refusal n, and no byte
// changed.
#[unsafe(no_mangle)]
pub extern "C" fn panelrights_write_file<'a>(
    state: &'a [u8],
    labels: &'a [u8],
    file: &'a mut [u8],
) -> u32
    ensures number { result ≡ write_answer state.now labels.now file.old }
    ensures buffer { file.new
        ≡ write_buffer state.now labels.now file.old }
{
    match site_writer::write(&record_reader::state_of(state), labels, file) {
        Ok(length) => length as u32,
        Err(refusal) => 65536 + refusal.number() as u32,
    }
}

// The place (0 to 7) of the lowest mark set in the byte, 8 if none.
#[unsafe(no_mangle)]
pub extern "C" fn panelrights_lowest_mark(marks: u8) -> u8
    ensures { result ≡ lowest marks }
{
    marks::lowest_mark(marks)
}
