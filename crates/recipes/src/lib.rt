// Recipes: 1 to 16 instructions that run entirely or not at all.
#![tactic(auto)]

ghost use Rattle.std.specs.Prelude.{◌≡◌, get_or, MatchResult};
ghost use Rattle.verdicts.specs.Refusals.{number};
ghost use Rattle.state.specs.Site.{verdict};
ghost use Rattle.state.specs.Stands.{site};
ghost use Rattle.soundness.specs.Sound.{Sound};
ghost use Rattle.machine.specs.Step.{step_of};
ghost use Rattle.recipes.specs.Recipe.{operand, instruction_at};
ghost use Rattle.recipes.specs.Recipe.{recipe_sized, misformed_operand, misformed_at, misformed};
ghost use Rattle.recipes.specs.Run.{as_verdict, recipe_of};

use instructions::Bytes;
use state::State;
use verdicts::Refusal;

// What comes with a call: who gives the instructions, and the numbers that the recipe leaves open.
#[derive(Clone, Copy)]
pub struct Call {
    pub activator: u8,
    pub parameters: [u8; 4],
}

// The refusal, and the place of the instruction that it is of, from 1. Where it is of the state or the whole recipe,
// the place is 0 and no Option: so it is stated, and so it goes to C.
#[derive(Clone, Copy)]
pub struct RecipeRefusal {
    pub refusal: Refusal,
    pub place: u8,
}

// How many bytes an instruction has.
const INSTRUCTION_SIZE: usize = 5;

// The byte at this place, 0 behind the last.
fn byte_at(bytes: &[u8], place: usize) -> u8
    ensures { result ≡ get_or bytes.now place 0 }
{
    bytes.get(place).copied().unwrap_or(0)
}

// The number that a kind and a value stand for.
fn operand(parameters: &[u8], kind: u8, value: u8) -> u8
    ensures { result ≡ operand parameters.now kind value }
{
    // The kind is a byte of any value: an enum would need a decoder beside the test for 14.
    if kind == 1 {
        byte_at(parameters, usize::from(value))
    } else {
        value
    }
}

// Is it the length of 1 to 16 instructions?
fn is_sized(length: usize) -> bool
    ensures { result ≡ recipe_sized length }
{
    (length % INSTRUCTION_SIZE == 0) & (5 <= length) & (length <= 80)
}

// Is the kind above 1, or the parameter above 3?
fn is_misformed_operand(kind: u8, value: u8) -> bool
    ensures { result ≡ misformed_operand kind value }
{
    (1 < kind) | ((kind == 1) & (3 < value))
}

// Has the instruction of these bytes a kind above 1 or a parameter above 3, for a or for b?
fn is_misformed_at(instruction: &[u8]) -> bool
    ensures { result ≡ misformed_at instruction.now 0 }
{
    is_misformed_operand(byte_at(instruction, 1), byte_at(instruction, 2))
        | is_misformed_operand(byte_at(instruction, 3), byte_at(instruction, 4))
}

// Is the recipe refused as 14?
fn is_misformed(recipe: &[u8]) -> bool
    ensures { result ≡ misformed recipe.now }
{
    if !is_sized(recipe.len()) {
        return true;
    }
    for instruction in recipe.chunks_exact(INSTRUCTION_SIZE) {
        if is_misformed_at(instruction) {
            return true;
        }
    }
    false
}

// The four bytes that the instruction of these bytes is with the call.
fn instruction_of(bytes: &[u8], call: &Call) -> Bytes
    ensures { result ≡ instruction_at call.now bytes.now 0 }
{
    Bytes {
        code: byte_at(bytes, 0),
        activator: call.activator,
        a: operand(&call.parameters, byte_at(bytes, 1), byte_at(bytes, 2)),
        b: operand(&call.parameters, byte_at(bytes, 3), byte_at(bytes, 4)),
    }
}

// The state after an instruction in a sound state. This is the step without 12: each instruction that is accepted keeps
// soundness, so a recipe asks for it once.
fn next(s: &State, bytes: Bytes) -> Result<State, Refusal>
    requires { Sound (site s.now) }
    ensures { MatchResult result (λ t. verdict 0 (site t) ≡ step_of (site s.now) bytes)
        (λ refusal. verdict (number refusal) (site s.now) ≡ step_of (site s.now) bytes) }
{
    let x = instructions::decode(bytes)?;
    refusals::check(s, x, bytes.activator, bytes.a, bytes.b)?;
    Ok(successors::successor(s, x, bytes.activator, bytes.a, bytes.b))
}

// What a recipe does with a record, both of any content. A refusal leaves the record as it is.
pub fn obey(s: &mut State, recipe: &[u8], call: Call) -> Result<(), RecipeRefusal>
    ensures { as_verdict result (site s.new) ≡ recipe_of (site s.old) recipe.now call }
{
    if !inspection::is_sound(s) {
        return Err(RecipeRefusal {
            refusal: Refusal::UnsoundState,
            place: 0,
        });
    }
    if is_misformed(recipe) {
        return Err(RecipeRefusal {
            refusal: Refusal::RecipeForm,
            place: 0,
        });
    }
    let mut reached = *s;
    for (k, instruction) in recipe.chunks_exact(INSTRUCTION_SIZE).enumerate() {
        match next(&reached, instruction_of(instruction, &call)) {
            Ok(t) => reached = t,
            Err(refusal) => {
                let place = (k + 1) as u8;
                return Err(RecipeRefusal { refusal, place });
            }
        }
    }
    *s = reached;
    Ok(())
}
