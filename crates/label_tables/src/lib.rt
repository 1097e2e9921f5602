// The table of labels, as a slice of its own bytes: whether it is in range, ascending and of listed areas, and which
// entry is an area's.
#![tactic(auto)]

ghost use Rattle.std.specs.Prelude.{◌≡◌, ◌+◌, ◌*◌, ◌≤◌, length};
ghost use Rattle.state.specs.Below.{each_below};
ghost use Rattle.bits.specs.Rows.{cells_of};
ghost use Rattle.label_tables.specs.Labels.{label_fits, labels_fit, labels_ascend, labels_listed, label_found};
ghost use Rattle.label_tables.specs.Texts.{text_fits};

use state::State;

// How many bytes an entry has: an area, the length of the text, and the text with its filler.
pub const LABEL_SIZE: usize = 32;

pub const LENGTH_AT: usize = 1;

pub const TEXT_AT: usize = 2;

const TEXT_SIZE: u8 = 30;

// Are the bytes of the text 32 to 126, and those after it 0?
fn text_fits(text: &[u8], size: u8) -> bool
    ensures { result ≡ each_below (length text.now) (text_fits text.now size) }
{
    let mut fits = true;
    for (i, byte) in text.iter().enumerate() {
        fits &= if i < size as usize {
            (32 <= *byte) & (*byte <= 126)
        } else {
            *byte == 0
        };
    }
    fits
}

// Is the entry's area a number of an area, its length 1 to 30, and its text in range?
fn label_fits(entry: &[u8]) -> bool
    requires { length entry.now ≡ 32 }
    ensures { result ≡ label_fits entry.now 0 }
{
    let size = entry[LENGTH_AT];
    ((entry[0] < State::AREAS) & (1 <= size) & (size <= TEXT_SIZE))
        & text_fits(&entry[TEXT_AT..], size)
}

// Is each entry in range?
pub fn all_fit(table: &[u8]) -> bool
    ensures { result ≡ labels_fit table.now }
{
    table.chunks_exact(LABEL_SIZE).all(label_fits)
}

// Is each entry's area below the next's?
pub fn all_ascend(table: &[u8]) -> bool
    ensures { result ≡ labels_ascend table.now }
{
    table
        .chunks_exact(LABEL_SIZE)
        .is_sorted_by(|entry, next| entry[0] < next[0])
}

// Is each entry's area listed?
pub fn all_listed(areas: &[u32], table: &[u8]) -> bool
    ensures { result ≡ labels_listed (cells_of areas.now) table.now }
{
    table
        .chunks_exact(LABEL_SIZE)
        .all(|entry| relations::is_member(areas, entry[0]))
}

// The entry of the area, if there is one. The area is any number: 256 is not 0.
pub fn index_of(table: &[u8], area: u32) -> Option<usize>
    ensures { result ≡ label_found table.now area }
{
    table
        .chunks_exact(LABEL_SIZE)
        .position(|entry| entry[0] as u32 == area)
}
