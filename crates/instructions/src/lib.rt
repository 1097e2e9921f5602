// What four bytes mean: the instruction that they fit.
#![tactic(auto)]

ghost use Rattle.std.specs.Prelude.{◌≡◌};
ghost use Rattle.state.specs.Checks.{first_met};
ghost use Rattle.instructions.specs.Instructions.{rule, instruction_of};
ghost use Rattle.instructions.specs.Decode.{picked_as, fits, in_range, decode_of, decoded_number, misfits};

use Instruction::{
    AddExport, AddImport, AddOwner, AddStructure, Define, ListArea, RemoveDefinition, RemoveExport,
    RemoveImport, RemoveOwner, RemoveStructure, UnlistArea,
};
use Lookup::{Both, NoLookup, OnlyA};
use MustOwn::{OwnsA, OwnsBoth, OwnsNothing, OwnsToCut};
use Target::{Definition, Export, Import, Owner, Structure, TheArea};
use state::State;
use verdicts::Refusal;

// The bytes of an instruction: its code, the activator, who is a user, and a and b.
#[derive(Clone, Copy)]
pub struct Bytes {
    pub code: u8,
    pub activator: u8,
    pub a: u8,
    pub b: u8,
}

// The twelve instructions.
#[derive(Clone, Copy, Debug, PartialEq, Eq)]
pub enum Instruction {
    ListArea,
    UnlistArea,
    AddOwner,
    RemoveOwner,
    AddStructure,
    RemoveStructure,
    Define,
    RemoveDefinition,
    AddImport,
    RemoveImport,
    AddExport,
    RemoveExport,
}

// What an instruction adds or removes: the area a, or a pair of a and b. It tells what b is as well.
#[derive(Clone, Copy)]
pub enum Target {
    TheArea,
    Owner,
    Definition,
    Structure,
    Import,
    Export,
}

// What must be listed: nothing, area a, or area a and b too.
#[derive(Clone, Copy)]
pub enum Lookup {
    NoLookup,
    OnlyA,
    Both,
}

// What the activator must own: nothing, area a, both areas; or, to cut a structure pair, either.
#[derive(Clone, Copy)]
pub enum MustOwn {
    OwnsNothing,
    OwnsA,
    OwnsBoth,
    OwnsToCut,
}

// A row of the table of instructions: an add or a remove, of what, and what it asks for.
#[derive(Clone, Copy)]
pub struct Rule {
    pub adds: bool,
    pub target: Target,
    pub lookup: Lookup,
    pub ownership: MustOwn,
}

// The table: whether the instruction adds, what it adds or removes, what must be listed, what the activator must own.
pub fn rule_of(x: Instruction) -> Rule
    ensures { result ≡ rule x }
{
    let (adds, target, lookup, ownership) = match x {
        ListArea => (true, TheArea, NoLookup, OwnsNothing),
        UnlistArea => (false, TheArea, OnlyA, OwnsA),
        AddOwner => (true, Owner, OnlyA, OwnsA),
        RemoveOwner => (false, Owner, Both, OwnsA),
        AddStructure => (true, Structure, Both, OwnsBoth),
        RemoveStructure => (false, Structure, Both, OwnsToCut),
        Define => (true, Definition, OnlyA, OwnsA),
        RemoveDefinition => (false, Definition, Both, OwnsA),
        AddImport => (true, Import, Both, OwnsA),
        RemoveImport => (false, Import, Both, OwnsA),
        AddExport => (true, Export, Both, OwnsA),
        RemoveExport => (false, Export, Both, OwnsA),
    };
    Rule {
        adds,
        target,
        lookup,
        ownership,
    }
}

// The instruction that a code picks, if it picks one.
impl TryFrom<u8> for Instruction {
    type Error = Refusal;

    ghost try_from_gives = { λ code result. result ≡ picked_as (instruction_of code) };

    fn try_from(code: u8) -> Result<Instruction, Refusal> {
        // A row for each code, and a range for the others, as document 01 has it.
        match code {
            0 | 13..=255 => Err(Refusal::UnknownCode),
            1 => Ok(ListArea),
            2 => Ok(UnlistArea),
            3 => Ok(AddOwner),
            4 => Ok(RemoveOwner),
            5 => Ok(AddStructure),
            6 => Ok(RemoveStructure),
            7 => Ok(Define),
            8 => Ok(RemoveDefinition),
            9 => Ok(AddImport),
            10 => Ok(RemoveImport),
            11 => Ok(AddExport),
            12 => Ok(RemoveExport),
        }
    }
}

// Is b what the table says?
fn is_fit(target: Target, b: u8) -> bool
    ensures { result ≡ fits target b }
{
    match target {
        TheArea => b == 0,
        Owner => b < State::USERS,
        Structure => b < State::AREAS,
        Definition | Import | Export => b < State::OBJECTS,
    }
}

// Are the numbers in range for the instruction?
fn is_in_range(x: Instruction, bytes: Bytes) -> bool
    ensures { result ≡ in_range x bytes.activator bytes.a bytes.b }
{
    (bytes.activator < State::USERS) & (bytes.a < State::AREAS) & is_fit(rule_of(x).target, bytes.b)
}

// The instruction that four bytes fit, or why they fit none. No list is looked at.
pub fn decode(bytes: Bytes) -> Result<Instruction, Refusal>
    ensures equation { result ≡ decode_of bytes }
    ensures number { decoded_number result ≡ first_met (misfits (decode_of bytes)) }
{
    let x = Instruction::try_from(bytes.code)?;
    if !is_in_range(x, bytes) {
        return Err(Refusal::OutOfRange);
    }
    Ok(x)
}
