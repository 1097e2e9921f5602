// Site files: any bytes get a sound state, or a refusal and the founding state.
#![tactic(auto)]

ghost use Rattle.std.specs.Prelude.{◌≡◌};
ghost use Rattle.state.specs.Checks.{first_met};
ghost use Rattle.state.specs.Site.{limit, first_kind, founding, verdict};
ghost use Rattle.state.specs.Stands.{site, relation_of};
ghost use Rattle.soundness.specs.Sound.{Sound};
ghost use Rattle.site_format.specs.Format.{held, labels, part, content_fits, content_ascends};
ghost use Rattle.site_file.specs.Reading.{tables_fit, tables_ascend, state_in, state_checks, as_state};
ghost use Rattle.site_file.specs.Reading.{as_verdict, read_of};
ghost use Rattle.verdicts.specs.Refusals.{number, refusal_number};

use site_format::Table;
use state::{Relation, State};
use verdicts::Refusal;

// Why a file is refused, and the state beside the refusal: the founding state.
#[derive(Clone, Copy)]
pub struct ReadRefused {
    pub refusal: Refusal,
    pub state: State,
}

// The limit of the first number of a relation's pairs.
fn first_limit(relation: Relation) -> u8
    ensures { result ≡ limit (first_kind (relation_of relation)) }
{
    match relation {
        Relation::Owner => State::USERS,
        Relation::Structure => State::AREAS,
        Relation::Definition | Relation::Import | Relation::Export => State::OBJECTS,
    }
}

// Is every number, length, text byte and filler byte of a table in its range?
fn is_in_range(bytes: &[u8], table: Table) -> bool
    ensures { result ≡ content_fits (held table) bytes.now }
{
    match table {
        Table::Pairs(relation) => pair_tables::all_fit(bytes, first_limit(relation)),
        Table::Labels => label_tables::all_fit(bytes),
    }
}

// So it is in each table.
fn tables_fit(file: &[u8]) -> bool
    ensures { result ≡ tables_fit file.now }
{
    Table::all().iter().all(|table| is_in_range(site_format::part(file, *table), *table))
}

// Is a table strictly ascending?
fn is_ascending(bytes: &[u8], table: Table) -> bool
    ensures { result ≡ content_ascends (held table) bytes.now }
{
    match table {
        Table::Pairs(_) => pair_tables::all_ascend(bytes),
        Table::Labels => label_tables::all_ascend(bytes),
    }
}

// Is every table?
fn tables_ascend(file: &[u8]) -> bool
    ensures { result ≡ tables_ascend file.now }
{
    Table::all().iter().all(|table| is_ascending(site_format::part(file, *table), *table))
}

// The state that the file holds.
fn state_in(file: &[u8]) -> State
    ensures { site result ≡ state_in file.now }
{
    site_tables::state_of(
        site_format::part(file, Table::Pairs(Relation::Owner)),
        site_format::part(file, Table::Pairs(Relation::Definition)),
        site_format::part(file, Table::Pairs(Relation::Structure)),
        site_format::part(file, Table::Pairs(Relation::Import)),
        site_format::part(file, Table::Pairs(Relation::Export)),
    )
}

// Is what a file holds a sound state, and are its labels of listed areas?
fn check_state(s: &State, file: &[u8]) -> Result<(), Refusal>
    requires { site s.now ≡ state_in file.now }
    ensures { refusal_number result ≡ first_met (state_checks (site s.now) (part file.now labels)) }
{
    if !inspection::is_well_formed(s) {
        return Err(Refusal::FileLists);
    }
    if !site_tables::labels_listed(s, site_format::part(file, Table::Labels)) {
        return Err(Refusal::FileLists);
    }
    if !validity::is_valid(s) {
        return Err(Refusal::FileLacksAccess);
    }
    if !inspection::has_no_own_import(s) {
        return Err(Refusal::FileLacksAccess);
    }
    Ok(())
}

// The reading of a file that is refused. It is called: laid into the reader, it would make the founding state before
// the first test, for each file.
#[cold]
#[inline(never)]
fn refused(refusal: Refusal) -> Result<State, ReadRefused>
    ensures { as_verdict result ≡ verdict (number refusal) founding }
{
    Err(ReadRefused {
        refusal,
        state: State::founding(),
    })
}

// The state that a file of any bytes holds, or its refusal with the founding state.
pub fn read(file: &[u8]) -> Result<State, ReadRefused>
    ensures equation { as_verdict result ≡ read_of file.now }
    ensures sound { Sound (as_state result) }
{
    if let Err(refusal) = site_header::check(file) {
        return refused(refusal);
    }
    let in_range = tables_fit(file);
    let ascending = tables_ascend(file);
    // The lower number is given where both apply.
    if !in_range {
        return refused(Refusal::FileRange);
    }
    if !ascending {
        return refused(Refusal::FileOrder);
    }
    let s = state_in(file);
    if let Err(refusal) = check_state(&s, file) {
        return refused(refusal);
    }
    Ok(s)
}
