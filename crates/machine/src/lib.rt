// The machine: any four bytes with any record get one successor state or one refusal.
#![tactic(auto)]

ghost use Rattle.std.specs.Prelude.{◌≡◌};
ghost use Rattle.verdicts.specs.Refusals.{refusal_number};
ghost use Rattle.state.specs.Site.{verdict};
ghost use Rattle.state.specs.Stands.{site};
ghost use Rattle.access.specs.Lending.{lending};
ghost use Rattle.access.specs.Answer.{answer, answer_number};
ghost use Rattle.state.specs.Checks.{first_met};
ghost use Rattle.machine.specs.Step.{step_refusal, step_of, as_reply};
ghost use Rattle.machine.specs.Step.{question_refusals, reply_of, reply_number, reply_value, AnswerMeans};

use instructions::Bytes;
use state::State;
use verdicts::Refusal;

// The refusal that four bytes get with a record, both of any content.
pub fn check(s: &State, bytes: Bytes) -> Result<(), Refusal>
    ensures { refusal_number result ≡ step_refusal (site s.now) bytes }
{
    if inspection::is_sound(s) {
        let decoded = instructions::decode(bytes);
        let Ok(x) = decoded else {
            return decoded.map(|_| ());
        };
        refusals::check(s, x, bytes.activator, bytes.a, bytes.b)
    } else {
        Err(Refusal::UnsoundState)
    }
}

// What four bytes do with a record, both of any content. A refusal leaves the record as it is.
pub fn step(s: &mut State, bytes: Bytes) -> Result<(), Refusal>
    ensures { verdict (refusal_number result) (site s.new) ≡ step_of (site s.old) bytes }
{
    check(s, bytes)?;
    *s = successors::next(s, bytes);
    Ok(())
}

// In how many steps has area a access to object b, if it has? Any record, and any numbers: 256 is no area, and not area
// 0. The refusal is the first that is met; an answer is that of the access layer.
#[tactic(auto, unfolding(state::specs::Checks::first_met, crate::specs::Step::reply_of))]
pub fn ask(s: &State, a: u32, b: u32) -> Result<Option<u8>, Refusal>
    ensures equation { as_reply result ≡ reply_of (site s.now) a b }
    ensures number { reply_number (as_reply result) ≡ first_met (question_refusals (site s.now) a b) }
    ensures value { reply_number (as_reply result) ≡ 0
        → reply_value (as_reply result) ≡ answer_number (answer (lending (site s.now) b) a) }
    ensures meaning { AnswerMeans (site s.now) a b (as_reply result) }
{
    if !inspection::is_sound(s) {
        return Err(Refusal::UnsoundState);
    }
    if !((a < State::AREAS as u32) & (b < State::OBJECTS as u32)) {
        return Err(Refusal::OutOfRange);
    }
    let area = a as u8;
    let object = b as u8;
    if !readings::are_listed(s, area, object) {
        return Err(Refusal::NotListed);
    }
    Ok(search::steps(s, area, object))
}
