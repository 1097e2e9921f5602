// Why the screen says so: the chain or the counts behind an access answer, and the pair behind a refusal as 11.
#![tactic(auto)]

ghost use Rattle.std.specs.Prelude.{◌≡◌, length};
ghost use Rattle.state.specs.Checks.{first_met};
ghost use Rattle.state.specs.Stands.{site};
ghost use Rattle.instructions.specs.Decode.{decode_of};
ghost use Rattle.successors.specs.Successor.{successor_of};
ghost use Rattle.machine.specs.Step.{step_refusal};
ghost use Rattle.output.specs.Buffer.{laid};
ghost use Rattle.reasons.specs.Explanation.{reason_bytes, explain_refusals, explained_by, as_explained};
ghost use Rattle.reasons.specs.Explanation.{as_explanation, explanation_of, explanation_number, explanation_bytes};
ghost use Rattle.reasons.specs.Explanation.{explained_buffer};
ghost use Rattle.reasons.specs.Lost.{first_lost, as_reason, step_reason_of};

use instructions::{Bytes, Target};
use reasons::{Explained, Lost, StepRefused};
use state::State;
use verdicts::Refusal;

// How many bytes the buffer must have: a chain has fewer, and the counts are as many.
const ROOM: usize = 32;

// Writes what explains the answer for an area and an object, from the front of the buffer on: the chain, or the counts
// where there is none.
fn put_reason(s: &State, area: u8, object: u8, buffer: &mut [u8]) -> Explained
    ensures equation { as_explained result ≡ explained_by (site s.now) area object }
    ensures buffer { buffer.new ≡ laid (reason_bytes (site s.now) area object) 0 buffer.old }
{
    let count = chain_finder::put_chain(s, area, object, buffer);
    if count != 0 {
        return Explained::Chain(count as u8);
    }
    let counts = chain_finder::least_counts(s, object);
    Explained::Counts(output::put_text(buffer, 0, &counts) as u8)
}

// Why has area a access to object b, or none? The first chain goes into the buffer, from its front, or the least counts
// of all areas. Any record, any numbers and any buffer: a refusal writes no byte, and bytes not written stay. The
// refusals of the access question are decided here as `machine::ask` decides them.
pub fn explain(s: &State, a: u32, b: u32, buffer: &mut [u8]) -> Result<Explained, Refusal>
    ensures equation { as_explanation result ≡ explanation_of (site s.now) a b buffer.old }
    ensures number { explanation_number (as_explanation result)
        ≡ first_met (explain_refusals (site s.now) a b buffer.old) }
    ensures bytes { explanation_number (as_explanation result) ≡ 0
        → explanation_bytes (as_explanation result) ≡ length (reason_bytes (site s.now) a b) }
    ensures buffer { buffer.new ≡ explained_buffer (site s.now) a b buffer.old }
{
    if buffer.len() < ROOM {
        return Err(Refusal::BufferLength);
    }
    if !inspection::is_sound(s) {
        return Err(Refusal::UnsoundState);
    }
    if !((a < State::AREAS as u32) & (b < State::OBJECTS as u32)) {
        return Err(Refusal::OutOfRange);
    }
    let area = a as u8;
    let object = b as u8;
    if !readings::are_listed(s, area, object) {
        return Err(Refusal::NotListed);
    }
    Ok(put_reason(s, area, object, buffer))
}

// The first pair that is lost by an instruction that is refused as 11, in the state that it would give. A pair of an
// object bears the access to that object alone, and a structure pair that to every object.
fn lost_by(s: &State, bytes: Bytes) -> Option<Lost>
    requires { step_refusal (site s.now) bytes ≡ 11 }
    ensures { result ≡ first_lost (successor_of (site s.now) bytes (decode_of bytes)) }
{
    let Ok(x) = instructions::decode(bytes) else {
        return None;
    };
    let mut left = *s;
    successors::obey(&mut left, x, bytes.activator, bytes.a, bytes.b);
    let rule = instructions::rule_of(x);
    match rule.target {
        Target::Structure => lost_pairs::first_lost(&left),
        _ => lost_pairs::first_lost_of(&left, bytes.b),
    }
}

// Why is the instruction refused? The refusal; and for 11 the first pair whose area would lack access. Any four bytes,
// and any record.
pub fn explain_step(s: &State, bytes: Bytes) -> Result<(), StepRefused>
    ensures { as_reason result ≡ step_reason_of (site s.now) bytes }
{
    let Err(refusal) = machine::check(s, bytes) else {
        return Ok(());
    };
    if refusal != Refusal::WouldLoseAccess {
        return Err(StepRefused {
            refusal,
            lost: None,
        });
    }
    let lost = lost_by(s, bytes);
    Err(StepRefused { refusal, lost })
}
