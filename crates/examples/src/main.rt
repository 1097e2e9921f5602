// What is run of the library's functions that no C program reaches. Here: the access question of document 01's session
// and of the traps around it, of relations that need not be a sound state's. In the modules: a transcript in buffers of
// several lengths (buffers), and the label finder's part of a file (labels).
#![tactic(auto)]

mod buffers;
mod labels;

use Command::{Add, Ask, Chain, Founding, Remove};
use Relation::{Definition, Export, Import, Structure};
use state::{Relation, State};
use std::io;

// A case begins with its title, in the founding state or with a chain through all areas. Pairs are then put in or taken
// out, and it is asked in how many steps an area has access to an object.
#[derive(Clone, Copy)]
enum Command {
    Founding(&'static str),
    Chain(&'static str),
    Add(Relation, u8, u8),
    Remove(Relation, u8, u8),
    Ask(u8, u8),
}

const CASES: [Command; 91] = [
    // Areas 1 and 0 lie in area 2, and area 1 defines object 9. Area 0 would import it, and nobody exports.
    Founding("line 6 of the session"),
    Add(Structure, 1, 2),
    Add(Structure, 0, 2),
    Add(Definition, 9, 1),
    Add(Import, 9, 0),
    Ask(0, 9),
    // Area 1 exports, area 0 imports, and area 2 has no entry of its own: the mailbox.
    Founding("line 8 of the session"),
    Add(Structure, 1, 2),
    Add(Structure, 0, 2),
    Add(Definition, 9, 1),
    Add(Export, 9, 1),
    Add(Import, 9, 0),
    Ask(0, 9),
    Ask(1, 9),
    Ask(2, 9),
    // Areas 1 and 2 lie in each other and import, and area 0 defines.
    Founding("a cycle that vouches for itself"),
    Add(Structure, 1, 2),
    Add(Structure, 2, 1),
    Add(Definition, 9, 0),
    Add(Import, 9, 1),
    Add(Import, 9, 2),
    Ask(0, 9),
    Ask(1, 9),
    Ask(2, 9),
    // The same with area 1 in area 0.
    Founding("the cycle tied to the defining area"),
    Add(Structure, 1, 2),
    Add(Structure, 2, 1),
    Add(Structure, 1, 0),
    Add(Definition, 9, 0),
    Add(Import, 9, 1),
    Add(Import, 9, 2),
    Ask(1, 9),
    Ask(2, 9),
    // Area 3 lies in area 2, which defines and exports; then area 3 imports.
    Founding("export does not go inward, import does"),
    Add(Structure, 3, 2),
    Add(Definition, 9, 2),
    Add(Export, 9, 2),
    Ask(3, 9),
    Add(Import, 9, 3),
    Ask(3, 9),
    // Area 3 lies in area 2 and defines, and area 2 imports; then area 3 exports.
    Founding("import does not go outward, export does"),
    Add(Structure, 3, 2),
    Add(Definition, 9, 3),
    Add(Import, 9, 2),
    Ask(2, 9),
    Add(Export, 9, 3),
    Ask(2, 9),
    // Object 9 goes outward through all areas, object 10 inward: 8 steps are access, and 9 are none.
    Chain("a chain through all areas, both ways"),
    Add(Definition, 9, 0),
    Add(Definition, 10, 31),
    Ask(0, 9),
    Ask(7, 9),
    Ask(8, 9),
    Ask(9, 9),
    Ask(31, 9),
    Ask(31, 10),
    Ask(24, 10),
    Ask(23, 10),
    Ask(22, 10),
    Ask(0, 10),
    // The chain is cut between areas 4 and 5. Then area 0 lies in area 23 too: 9 steps to area 31 for object 9, and 9
    // from there for object 10; then in area 24, and either has 8.
    Chain("the chain cut, and ways of 9 steps and of 8"),
    Add(Definition, 9, 0),
    Add(Definition, 10, 31),
    Remove(Structure, 4, 5),
    Ask(4, 9),
    Ask(8, 9),
    Ask(0, 10),
    Add(Structure, 0, 23),
    Ask(30, 9),
    Ask(31, 9),
    Ask(0, 10),
    Add(Structure, 0, 24),
    Ask(30, 9),
    Ask(31, 9),
    Ask(0, 10),
    // Areas 5 and 6 lie in themselves, import and export, and area 5 defines.
    Founding("an area in itself"),
    Add(Structure, 5, 5),
    Add(Structure, 6, 6),
    Add(Definition, 9, 5),
    Add(Import, 9, 5),
    Add(Export, 9, 5),
    Add(Import, 9, 6),
    Add(Export, 9, 6),
    Ask(5, 9),
    Ask(6, 9),
    // No area has the number 32 or 255, and no object 64 or 255.
    Founding("numbers past the limits"),
    Add(Definition, 9, 5),
    Ask(32, 9),
    Ask(255, 9),
    Ask(5, 64),
    Ask(5, 255),
];

// Each part is written by itself: an output that takes no more has all that came before, to the last part.
fn ask(rt: &impl Print, s: &State, area: u8, object: u8) -> io::Result<()> {
    print!(rt; "  area ")?;
    print!(rt; "{area}")?;
    print!(rt; ", object ")?;
    print!(rt; "{object}")?;
    match search::steps(s, area, object) {
        Some(n) => {
            print!(rt; ": steps ")?;
            print!(rt; "{n}")?;
            println!(rt)
        }
        None => println!(rt; ": no access"),
    }
}

// Area a lies in area a + 1, for each of them, and each exports object 9 and imports object 10.
fn chain() -> State {
    let mut s = State::founding();
    for a in 0..31 {
        updates::relate(&mut s, Structure, a, a + 1, true);
        updates::relate(&mut s, Export, 9, a, true);
        updates::relate(&mut s, Import, 10, a, true);
    }
    s
}

// One command, in the state that those before it gave.
fn obey(rt: &impl Print, s: &mut State, command: Command) -> io::Result<()> {
    match command {
        Founding(title) => {
            *s = State::founding();
            println!(rt; "{title}")?;
        }
        Chain(title) => {
            *s = chain();
            println!(rt; "{title}")?;
        }
        Add(relation, x, y) => updates::relate(s, relation, x, y, true),
        Remove(relation, x, y) => updates::relate(s, relation, x, y, false),
        Ask(area, object) => ask(rt, s, area, object)?,
    }
    Ok(())
}

fn run_cases(rt: &impl Print) -> io::Result<()> {
    let mut s = State::founding();
    for command in CASES {
        obey(rt, &mut s, command)?;
    }
    Ok(())
}

// A read or a write that fails is the error of the program.
fn main(rt: HostRuntime) -> io::Result<()> {
    run_cases(&rt)?;
    buffers::run(&rt, &mut rt.stdin())?;
    labels::run(&rt)
}
