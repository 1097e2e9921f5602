// The writer of site files: a state and its labels into a lent buffer, each byte of the file once.
#![tactic(auto)]

ghost use Rattle.std.specs.Prelude.{◌≡◌, ◌/◌, not, [], ◌∷◌, length};
ghost use Rattle.bits.specs.Rows.{cells_of};
ghost use Rattle.state.specs.Site.{cells, limit, first_kind};
ghost use Rattle.state.specs.Stands.{site, relation_of};
ghost use Rattle.label_tables.specs.Labels.{LawfulBlock};
ghost use Rattle.site_format.specs.Format.{held, layout_of, tables};
ghost use Rattle.site_encoding.specs.Encode.{content_of, field_bytes, fields_of, body_of};
ghost use Rattle.output.specs.Buffer.{as_written, laid, place_behind};
ghost use Rattle.site_encoding.specs.Writer.{is_unlawful, write_of, buffer_after};

use site_format::Table;
use state::{Relation, State};
use verdicts::Refusal;

// The rows of a relation: one for each number that its pairs can have first.
#[tactic(auto, unfolding(state::specs::Stands::site))]
fn rows_of(s: &State, relation: Relation) -> &[u32]
    ensures rows { cells_of result.now ≡ cells (site s.now) (relation_of relation) }
    ensures long { length result.now ≡ limit (first_kind (relation_of relation)) }
{
    match relation {
        Relation::Owner => &s.owners,
        Relation::Definition => &s.definitions,
        Relation::Structure => &s.structure,
        Relation::Import => &s.imports,
        Relation::Export => &s.exports,
    }
}

// What a file holds: a state, and the block of its labels.
#[derive(Clone, Copy)]
struct Contents<'a> {
    state: &'a State,
    labels: &'a [u8],
}

impl Contents<'_> {
    // Has the block no partial entry, and does it break none of the reader's label conditions?
    fn is_lawful(self) -> bool
        ensures { result ≡ not (is_unlawful (site self.entry.state.now) self.entry.labels.now) }
    {
        (self.labels.len() % label_tables::LABEL_SIZE == 0)
            & label_tables::all_fit(self.labels)
            & label_tables::all_ascend(self.labels)
            & site_tables::labels_listed(self.state, self.labels)
    }

    // How many elements the table has.
    fn count_of(self, table: Table) -> u16
        requires { LawfulBlock self.labels.now }
        ensures { result ≡ length (content_of (site self.entry.state.now) self.entry.labels.now (held table))
            / (layout_of (held table)).size }
    {
        match table {
            Table::Pairs(relation) => {
                let rows = rows_of(self.state, relation);
                pair_writer::pair_count(rows, rows.len() as u8)
            }
            Table::Labels => (self.labels.len() / label_tables::LABEL_SIZE) as u16,
        }
    }

    // The fields of the header: version, file length, six counts, six offsets. Each table stands behind the one before
    // it.
    fn fields(self) -> [u16; 14]
        requires { LawfulBlock self.labels.now }
        ensures { result ≡ fields_of (site self.entry.state.now) self.entry.labels.now }
    {
        let mut fields = [0u16; 14];
        fields[0] = site_format::VERSION;
        let mut at = site_format::HEADER_SIZE as u16;
        let tables = Table::all();
        for (k, table) in tables.iter().enumerate() {
            let count = self.count_of(*table);
            fields[2 + k] = count;
            fields[8 + k] = at;
            at += count * site_format::layout_of(*table).size;
        }
        fields[1] = at;
        fields
    }

    // Writes a table.
    fn put_table(self, out: &mut [u8], at: usize, table: Table) -> usize
        ensures place { result ≡ place_behind at (content_of (site self.entry.state.now) self.entry.labels.now
            (held table)) }
        ensures buffer { out.new ≡ laid (content_of (site self.entry.state.now) self.entry.labels.now (held table))
            at out.old }
    {
        match table {
            Table::Pairs(relation) => {
                let rows = rows_of(self.state, relation);
                pair_writer::put_pairs(out, at, rows, rows.len() as u8)
            }
            Table::Labels => output::put_text(out, at, self.labels),
        }
    }

    // Writes one table behind the other.
    fn put_tables(self, out: &mut [u8], at: usize) -> usize
        ensures place { result ≡ place_behind at (body_of (site self.entry.state.now) self.entry.labels.now tables) }
        ensures buffer { out.new ≡ laid (body_of (site self.entry.state.now) self.entry.labels.now tables) at out.old }
    {
        let mut table_at = at;
        for table in Table::all() {
            table_at = self.put_table(out, table_at, table);
        }
        table_at
    }
}

// Writes a field, low byte first.
fn put_field(out: &mut [u8], at: usize, field: u16) -> usize
    ensures place { result ≡ place_behind at (field_bytes (field ∷ [])) }
    ensures buffer { out.new ≡ laid (field_bytes (field ∷ [])) at out.old }
{
    output::put_text(out, at, &field.to_le_bytes())
}

// Writes one field behind the other.
fn put_fields(out: &mut [u8], at: usize, fields: &[u16]) -> usize
    ensures place { result ≡ place_behind at (field_bytes fields.now) }
    ensures buffer { out.new ≡ laid (field_bytes fields.now) at out.old }
{
    let mut end = at;
    for field in fields {
        end = put_field(out, end, *field);
    }
    end
}

// Writes the file of a state and its labels from the front of the buffer on, and answers how many bytes it has; or the
// refusal, 12, 30 or 31, and no byte is changed.
pub fn write(s: &State, labels: &[u8], file: &mut [u8]) -> Result<usize, Refusal>
    ensures answer { as_written result ≡ write_of (site s.now) labels.now file.old }
    ensures buffer { file.new ≡ buffer_after (site s.now) labels.now file.old }
{
    if !inspection::is_sound(s) {
        return Err(Refusal::UnsoundState);
    }
    let contents = Contents { state: s, labels };
    if !contents.is_lawful() {
        return Err(Refusal::LabelBlock);
    }
    let fields = contents.fields();
    let length = fields[1] as usize;
    if file.len() < length {
        return Err(Refusal::BufferLength);
    }
    let header_end = put_fields(file, 0, &fields);
    contents.put_tables(file, header_end);
    Ok(length)
}
