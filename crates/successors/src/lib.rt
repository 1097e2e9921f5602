// The state that an instruction gives.
#![tactic(auto)]

ghost use Rattle.std.specs.Prelude.{◌≡◌};
ghost use Rattle.state.specs.Stands.{site};
ghost use Rattle.successors.specs.Successor.{without_owner, changed, successor, successor_of};
ghost use Rattle.instructions.specs.Decode.{decode_of};

use instructions::{Bytes, Instruction, Target};
use state::{Kind, Relation, State};

// User u no longer owns area a: he is listed only if he owns an area still.
fn disown(s: &mut State, u: u8, a: u8)
    ensures { site s.new ≡ without_owner (site s.old) u a }
{
    updates::relate(s, Relation::Owner, u, a, false);
    let keeps = readings::is_owner(s, u);
    updates::list(s, Kind::User, u, keeps);
}

// What a, b and the activator u stand for is there, or is there no longer.
fn change(s: &mut State, target: Target, present: bool, u: u8, a: u8, b: u8)
    ensures { site s.new ≡ changed (site s.old) target present u a b }
{
    match target {
        Target::TheArea => {
            if present {
                updates::list(s, Kind::Area, a, true);
                updates::relate(s, Relation::Owner, u, a, true);
            } else {
                disown(s, u, a);
                updates::list(s, Kind::Area, a, false);
            }
        }
        Target::Owner => {
            if present {
                updates::list(s, Kind::User, b, true);
                updates::relate(s, Relation::Owner, b, a, true);
            } else {
                disown(s, b, a);
            }
        }
        Target::Definition => {
            updates::list(s, Kind::Object, b, present);
            updates::relate(s, Relation::Definition, b, a, present);
        }
        Target::Structure => updates::relate(s, Relation::Structure, a, b, present),
        Target::Import => updates::relate(s, Relation::Import, b, a, present),
        Target::Export => updates::relate(s, Relation::Export, b, a, present),
    }
}

// The record becomes what the instruction makes of it, whatever it holds and whatever the numbers. They are u, a and b
// and no Bytes: the code would come with them, beside the instruction that it picked.
pub fn obey(s: &mut State, x: Instruction, u: u8, a: u8, b: u8)
    ensures { site s.new ≡ successor (site s.old) x u a b }
{
    let rule = instructions::rule_of(x);
    change(s, rule.target, rule.adds, u, a, b);
}

// The state that the instruction would give.
pub fn successor(s: &State, x: Instruction, u: u8, a: u8, b: u8) -> State
    ensures { site result ≡ successor (site s.now) x u a b }
{
    let mut t = *s;
    obey(&mut t, x, u, a, b);
    t
}

// The same for four bytes, by what they fit; those that fit no instruction change nothing.
pub fn next(s: &State, bytes: Bytes) -> State
    ensures { site result ≡ successor_of (site s.now) bytes (decode_of bytes) }
{
    match instructions::decode(bytes) {
        Ok(x) => successor(s, x, bytes.activator, bytes.a, bytes.b),
        Err(_) => *s,
    }
}
