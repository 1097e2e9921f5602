// Reads the record of a state: from its bytes to the state.
#![tactic(auto)]

ghost use Rattle.std.specs.Prelude.{◌≡◌, ◌+◌, ◌*◌, ◌≤◌, length};
ghost use Rattle.bits.specs.Rows.{cells_of};
ghost use Rattle.state.specs.Stands.{site};
ghost use Rattle.records.specs.Record.{cells_at, state_of};

use state::State;

// The rows that stand from byte `at` on: four bytes each, the low byte first.
fn rows<const N: usize>(bytes: &[u8], at: usize) -> [u32; N]
    requires { at + N * 4 ≤ length bytes.now }
    ensures { cells_of result ≡ cells_at bytes.now at (N * 32) }
{
    let mut read = [0u32; N];
    for (i, row) in read.iter_mut().enumerate() {
        // By the place of each byte: an array of four is made of single bytes either way.
        let k = at + i * 4;
        *row = u32::from_le_bytes([bytes[k], bytes[k + 1], bytes[k + 2], bytes[k + 3]]);
    }
    read
}

// The state whose record the bytes are; for bytes that are no record the state of nothing, which is not sound.
pub fn state_of(bytes: &[u8]) -> State
    ensures { site result ≡ state_of bytes.now }
{
    if bytes.len() != records::SIZE {
        return State::empty();
    }
    State {
        users: rows(bytes, records::USERS),
        areas: rows(bytes, records::AREAS),
        objects: rows(bytes, records::OBJECTS),
        owners: rows(bytes, records::OWNERS),
        definitions: rows(bytes, records::DEFINITIONS),
        structure: rows(bytes, records::STRUCTURE),
        imports: rows(bytes, records::IMPORTS),
        exports: rows(bytes, records::EXPORTS),
    }
}
