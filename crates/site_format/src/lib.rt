// The format of a site file: its header's fields, and its six tables as parts of the file.
#![tactic(auto)]

ghost use Rattle.std.specs.Prelude.{◌≡◌, min, map, length, get_or, take, drop};
ghost use Rattle.site_format.specs.Format.{field, layout_of, tables, held, as_layout, part, behind};

use state::Relation;

// How many bytes the header has.
pub const HEADER_SIZE: usize = 28;

// The version of the format, and where the header states a file's.
pub const VERSION: u16 = 1;

pub const VERSION_AT: u8 = 0;

// Where the header states the file's length.
pub const LENGTH_AT: u8 = 2;

// The byte, or 0 past the end.
fn byte_at(file: &[u8], at: usize) -> u8
    ensures { result ≡ get_or file.now at 0 }
{
    file.get(at).copied().unwrap_or(0)
}

// The header's field of two bytes, low byte first.
pub fn field_at(file: &[u8], at: u8) -> u16
    ensures { result ≡ field file.now at }
{
    u16::from_le_bytes([byte_at(file, at as usize), byte_at(file, at as usize + 1)])
}

// The bytes from a place on, as many as asked for or as there are.
pub fn part_from(file: &[u8], from: usize, len: usize) -> &[u8]
    ensures bytes { result.now ≡ take len (drop from file.now) }
    ensures place { result.ref_ptr ≡ behind file.entry.ref_ptr (min from (length file.now)) }
{
    let start = from.min(file.len());
    let count = len.min(file.len() - start);
    &file[start..start + count]
}

// The six tables: one for the pairs of each relation, and that of the labels.
#[derive(Clone, Copy, Debug, PartialEq, Eq)]
pub enum Table {
    Pairs(Relation),
    Labels,
}

impl Table {
    // Each table once, in their order in the file.
    pub fn all() -> [Table; 6]
        ensures { map held result ≡ tables }
    {
        [
            Table::Pairs(Relation::Owner),
            Table::Pairs(Relation::Definition),
            Table::Pairs(Relation::Structure),
            Table::Pairs(Relation::Import),
            Table::Pairs(Relation::Export),
            Table::Labels,
        ]
    }
}

// The numbers of a table: the size of an element, the most of them that there may be, and where in the header their
// count and the table's offset are stated.
#[derive(Clone, Copy)]
pub struct Layout {
    pub size: u16,
    pub most: u16,
    pub count_at: u8,
    pub offset_at: u8,
}

// One row for each table.
const OWNERS: Layout = Layout {
    size: pair_tables::PAIR_SIZE as u16,
    most: 1024,
    count_at: 4,
    offset_at: 16,
};

const DEFINITIONS: Layout = Layout {
    size: pair_tables::PAIR_SIZE as u16,
    most: 64,
    count_at: 6,
    offset_at: 18,
};

const STRUCTURE: Layout = Layout {
    size: pair_tables::PAIR_SIZE as u16,
    most: 1024,
    count_at: 8,
    offset_at: 20,
};

const IMPORTS: Layout = Layout {
    size: pair_tables::PAIR_SIZE as u16,
    most: 2048,
    count_at: 10,
    offset_at: 22,
};

const EXPORTS: Layout = Layout {
    size: pair_tables::PAIR_SIZE as u16,
    most: 2048,
    count_at: 12,
    offset_at: 24,
};

const LABELS: Layout = Layout {
    size: label_tables::LABEL_SIZE as u16,
    most: 32,
    count_at: 14,
    offset_at: 26,
};

// The numbers of each table.
pub fn layout_of(table: Table) -> Layout
    ensures { as_layout result ≡ layout_of (held table) }
{
    match table {
        Table::Pairs(Relation::Owner) => OWNERS,
        Table::Pairs(Relation::Definition) => DEFINITIONS,
        Table::Pairs(Relation::Structure) => STRUCTURE,
        Table::Pairs(Relation::Import) => IMPORTS,
        Table::Pairs(Relation::Export) => EXPORTS,
        Table::Labels => LABELS,
    }
}

// The bytes of a table: as many elements as its count says, from its offset on.
pub fn part(file: &[u8], table: Table) -> &[u8]
    ensures { result.now ≡ part file.now (held table) }
{
    let layout = layout_of(table);
    let from = field_at(file, layout.offset_at) as usize;
    let len = field_at(file, layout.count_at) as usize * layout.size as usize;
    part_from(file, from, len)
}
