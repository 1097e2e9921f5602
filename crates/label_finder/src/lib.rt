// The label finder: an area's label, and the block of all labels, are parts of the caller's file.
#![tactic(auto)]

ghost use Rattle.std.specs.Prelude.{◌≡◌};
ghost use Rattle.site_format.specs.Format.{behind};
ghost use Rattle.label_finder.specs.Finder.{text_at, found_place, label_text, found_block};

use site_format::Table;

// Where a part of a file stands: its first byte, and how many it has.
#[derive(Clone, Copy, Debug, PartialEq, Eq)]
pub struct Place {
    pub at: u16,
    pub length: u16,
}

// Where the text of the area's label stands in the file, and how many bytes it has; nowhere for a refused file, or an
// area with no label.
pub fn label_place(file: &[u8], area: u32) -> Option<Place>
    ensures { result ≡ found_place file.now area }
{
    let block = block_place(file)?;
    let table = site_format::part(file, Table::Labels);
    let k = label_tables::index_of(table, area)?;
    // The entry's place is reckoned, since the answer is a place in the file.
    let at = (block.at as usize + (k * label_tables::LABEL_SIZE + label_tables::TEXT_AT)) as u16;
    let length = table[k * label_tables::LABEL_SIZE + label_tables::LENGTH_AT] as u16;
    Some(Place { at, length })
}

// The text of the area's label, as a part of the file; for a refused file, or an area with no label, the part of length
// 0 at the file's front.
pub fn label(file: &[u8], area: u32) -> &[u8]
    ensures bytes { result.now ≡ label_text file.now area }
    ensures place { result.ref_ptr ≡ behind file.entry.ref_ptr (text_at file.now area) }
{
    match label_place(file, area) {
        Some(place) => site_format::part_from(file, place.at as usize, place.length as usize),
        None => site_format::part_from(file, 0, 0),
    }
}

// Where the label block stands in the file, and how many bytes it has; nowhere for a refused file.
pub fn block_place(file: &[u8]) -> Option<Place>
    ensures { result ≡ found_block file.now }
{
    if site_file::read(file).is_err() {
        return None;
    }
    let layout = site_format::layout_of(Table::Labels);
    let at = site_format::field_at(file, layout.offset_at);
    let length = site_format::field_at(file, layout.count_at) * layout.size;
    Some(Place { at, length })
}
