// When an instruction that the bytes fit is refused, and why: the early checks, of what was read of the state given,
// and the late ones, of the state that the instruction would give. The state given is not changed.
#![tactic(auto, unfolding(state::specs::Checks::first_met))]

ghost use Rattle.std.specs.Prelude.{◌≡◌, ◌&&◌, not};
ghost use Rattle.state.specs.Checks.{first_met};
ghost use Rattle.state.specs.Stands.{site};
ghost use Rattle.access.specs.Lending.{lending};
ghost use Rattle.access.specs.Answer.{access};
ghost use Rattle.verdicts.specs.Refusals.{refusal_number};
ghost use Rattle.refusals.specs.Refusals.{b_listed, missing, entitled, present, absent, own_import};
ghost use Rattle.refusals.specs.Refusals.{is_entry, early_checks};
ghost use Rattle.refusals.specs.Parts.{none_left, still_named, cuts_access, result_checks, found_checks};

use instructions::{Instruction, Lookup, MustOwn, Rule, Target};
use readings::Seen;
use state::State;
use verdicts::Refusal;

// Is b listed, as what it is?
fn b_is_listed(v: Seen, target: Target) -> bool
    ensures { result ≡ b_listed v target }
{
    match target {
        Target::TheArea => true,
        Target::Owner => v.user,
        Target::Structure => v.outer,
        Target::Definition | Target::Import | Target::Export => v.object,
    }
}

// Is something that the instruction names not listed?
fn is_missing(v: Seen, target: Target, lookup: Lookup) -> bool
    ensures { result ≡ missing v target lookup }
{
    match lookup {
        Lookup::NoLookup => false,
        Lookup::OnlyA => !v.area,
        Lookup::Both => !(v.area & b_is_listed(v, target)),
    }
}

// Has the activator the ownership that the instruction asks for?
fn is_entitled(v: Seen, ownership: MustOwn) -> bool
    ensures { result ≡ entitled v ownership }
{
    match ownership {
        MustOwn::OwnsNothing => true,
        MustOwn::OwnsA => v.own,
        MustOwn::OwnsBoth => v.own & v.other,
        MustOwn::OwnsToCut => v.own | v.other,
    }
}

// Is there what would be added?
fn is_present(v: Seen, target: Target) -> bool
    ensures { result ≡ present v target }
{
    match target {
        Target::TheArea => v.area,
        Target::Owner => v.owned,
        Target::Definition => v.object,
        Target::Structure => v.inside,
        Target::Import => v.imported,
        Target::Export => v.exported,
    }
}

// Is the pair that would be removed not there?
fn is_absent(v: Seen, target: Target) -> bool
    ensures { result ≡ absent v target }
{
    match target {
        Target::TheArea => false,
        Target::Owner => !v.owned,
        Target::Definition => !v.defined,
        Target::Structure => !v.inside,
        Target::Import => !v.imported,
        Target::Export => !v.exported,
    }
}

// Would the area import an object that it defines?
fn is_own_import(v: Seen, target: Target) -> bool
    ensures { result ≡ own_import v target }
{
    matches!(target, Target::Import) & v.defined
}

// The early checks, by what was read.
fn check_early(v: Seen, rule: Rule) -> Result<(), Refusal>
    ensures { refusal_number result ≡ first_met (early_checks v rule) }
{
    if !v.activator {
        return Err(Refusal::ActivatorUnlisted);
    }
    if is_missing(v, rule.target, rule.lookup) {
        return Err(Refusal::NotListed);
    }
    if !is_entitled(v, rule.ownership) {
        return Err(Refusal::NotOwner);
    }
    if rule.adds & is_present(v, rule.target) {
        return Err(Refusal::AlreadyThere);
    }
    if !rule.adds & is_absent(v, rule.target) {
        return Err(Refusal::NotThere);
    }
    if rule.adds & is_own_import(v, rule.target) {
        return Err(Refusal::OwnImport);
    }
    Ok(())
}

// After a remove: is there no area, or no owner of area a?
fn is_none_left(t: &State, target: Target, a: u8) -> bool
    ensures { result ≡ none_left (site t.now) target a }
{
    match target {
        Target::TheArea => !inspection::has_area(t),
        Target::Owner => !readings::is_owned(t, a),
        Target::Definition | Target::Structure | Target::Import | Target::Export => false,
    }
}

// After an area's unlisting: does a pair still name the area?
fn is_still_named(t: &State, target: Target, a: u8) -> bool
    ensures { result ≡ still_named (site t.now) target a }
{
    match target {
        Target::TheArea => readings::names_area(t, a),
        _ => false,
    }
}

// After an import or export is added: does its area lack access?
fn is_access_lacking(t: &State, target: Target, a: u8, b: u8) -> bool
    ensures { result ≡ (is_entry target && not (access (lending (site t.now) b) a)) }
{
    match target {
        Target::Import | Target::Export => search::steps(t, a, b).is_none(),
        Target::TheArea | Target::Owner | Target::Definition | Target::Structure => false,
    }
}

// After a remove: does the area of some import or export pair lack access? A pair of an object bears the access of that
// object alone.
fn is_access_cut(t: &State, target: Target, b: u8) -> bool
    ensures { result ≡ cuts_access (site t.now) target b }
{
    match target {
        Target::TheArea | Target::Owner => false,
        Target::Structure => !validity::is_valid(t),
        Target::Definition | Target::Import | Target::Export => !validity::is_valid_for(t, b),
    }
}

// The late checks, of the state t that the instruction would give.
fn check_late(t: &State, rule: Rule, a: u8, b: u8) -> Result<(), Refusal>
    ensures { refusal_number result ≡ first_met (result_checks (site t.now) rule.target rule.adds a b) }
{
    if rule.adds {
        if is_access_lacking(t, rule.target, a, b) {
            return Err(Refusal::WouldLackAccess);
        }
        return Ok(());
    }
    if is_none_left(t, rule.target, a) {
        return Err(Refusal::LastOne);
    }
    if is_still_named(t, rule.target, a) {
        return Err(Refusal::AreaInUse);
    }
    if is_access_cut(t, rule.target, b) {
        return Err(Refusal::WouldLoseAccess);
    }
    Ok(())
}

// Why an instruction is refused, by what is read of the state and by what it would lead to. The numbers are no Bytes,
// as in `successors::obey`.
pub fn check(s: &State, x: Instruction, u: u8, a: u8, b: u8) -> Result<(), Refusal>
    ensures { refusal_number result ≡ first_met (found_checks (site s.now) x u a b) }
{
    let rule = instructions::rule_of(x);
    check_early(readings::look(s, u, a, b), rule)?;
    let mut t = *s;
    successors::obey(&mut t, x, u, a, b);
    check_late(&t, rule, a, b)
}
