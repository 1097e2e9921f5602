// Writes the record of a state: from the state to its bytes.
#![tactic(auto)]

ghost use Rattle.std.specs.Prelude.{◌≡◌, ◌+◌, ◌*◌, ◌≤◌, length};
ghost use Rattle.verdicts.specs.Refusals.{refusal_number};
ghost use Rattle.state.specs.Stands.{site};
ghost use Rattle.records.specs.Record.{number_for, stored};
ghost use Rattle.record_writer.specs.Laying.{laid};

use state::State;
use verdicts::Refusal;

// Writes the rows from byte `at` on: four bytes each, the low byte first.
fn write_rows<'a>(bytes: &'a mut [u8], at: usize, rows: &'a [u32])
    requires { at + length rows.now * 4 ≤ length bytes.old }
    ensures { bytes.new ≡ laid bytes.old at rows.now }
{
    for (i, row) in rows.iter().enumerate() {
        // By the place of each row: behind a walk by `chunks_exact_mut` a proof knows no element.
        let k = at + i * 4;
        bytes[k..k + 4].copy_from_slice(&row.to_le_bytes());
    }
}

// Writes the state's record into the buffer: refused, and no byte written, if the buffer has another length. It is laid
// into its callers, so that a constant state is written as a constant: called, it costs three times as much there.
#[inline(always)]
pub fn write(s: &State, buffer: &mut [u8]) -> Result<(), Refusal>
    ensures number { refusal_number result ≡ number_for buffer.old }
    ensures bytes { buffer.new ≡ stored buffer.old (site s.now) }
{
    if buffer.len() != records::SIZE {
        return Err(Refusal::BufferLength);
    }
    write_rows(buffer, records::USERS, &s.users);
    write_rows(buffer, records::AREAS, &s.areas);
    write_rows(buffer, records::OBJECTS, &s.objects);
    write_rows(buffer, records::OWNERS, &s.owners);
    write_rows(buffer, records::DEFINITIONS, &s.definitions);
    write_rows(buffer, records::STRUCTURE, &s.structure);
    write_rows(buffer, records::IMPORTS, &s.imports);
    write_rows(buffer, records::EXPORTS, &s.exports);
    Ok(())
}
