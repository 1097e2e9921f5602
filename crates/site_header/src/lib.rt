// The refusals of a site file's header, by its version, the file's length, and the tables' counts and offsets.
#![tactic(auto)]

ghost use Rattle.std.specs.Prelude.{◌≡◌};
ghost use Rattle.state.specs.Checks.{first_met};
ghost use Rattle.site_format.specs.Format.{header_size, tables, held};
ghost use Rattle.site_header.specs.Header.{count_fits, counts_fit, placed_from, header_checks};
ghost use Rattle.verdicts.specs.Refusals.{refusal_number};

use site_format::Table;
use verdicts::Refusal;

// Is the table's count not above its limit?
fn count_fits(file: &[u8], table: Table) -> bool
    ensures { result ≡ count_fits file.now (held table) }
{
    let layout = site_format::layout_of(table);
    site_format::field_at(file, layout.count_at) <= layout.most
}

// Is no count above its limit?
fn counts_fit(file: &[u8]) -> bool
    ensures { result ≡ counts_fit file.now }
{
    Table::all().iter().all(|table| count_fits(file, *table))
}

// Does each table stand behind the one before it, the first behind the header, and does the file end with the last?
fn is_placed(file: &[u8]) -> bool
    ensures { result ≡ placed_from file.now tables header_size }
{
    let mut at = site_format::HEADER_SIZE;
    for table in Table::all() {
        let layout = site_format::layout_of(table);
        if site_format::field_at(file, layout.offset_at) as usize != at {
            return false;
        }
        at += site_format::field_at(file, layout.count_at) as usize * layout.size as usize;
    }
    at == file.len()
}

// Is the header in order, and does the file have the tables that it states?
#[tactic(auto, using(std::proofs::lemmas::Bool::Decides::nat_tests), unfolding(state::specs::Checks::first_met))]
pub fn check(file: &[u8]) -> Result<(), Refusal>
    ensures { refusal_number result ≡ first_met (header_checks file.now) }
{
    if file.len() < site_format::HEADER_SIZE {
        return Err(Refusal::FileTooShort);
    }
    if site_format::field_at(file, site_format::VERSION_AT) != site_format::VERSION {
        return Err(Refusal::FileVersion);
    }
    if site_format::field_at(file, site_format::LENGTH_AT) as usize != file.len() {
        return Err(Refusal::FileLength);
    }
    if !counts_fit(file) {
        return Err(Refusal::FileCount);
    }
    if !is_placed(file) {
        return Err(Refusal::FileOffset);
    }
    Ok(())
}
