// The table of a relation, written into a buffer, and how many pairs it has.
#![tactic(auto)]

ghost use Rattle.std.specs.Prelude.{◌≡◌};
ghost use Rattle.bits.specs.Rows.{cells_of};
ghost use Rattle.state.specs.Cells.{pair};
ghost use Rattle.output.specs.Buffer.{laid, place_behind};
ghost use Rattle.pair_tables.specs.Pairs.{pair_count, table_of};
ghost use Rattle.pair_writer.specs.Row.{row_table};

// Writes a pair with `first` for each area of the row, the lowest area first, as far as the buffer goes, and answers
// the place behind them.
fn put_row(out: &mut [u8], at: usize, first: u8, row: u32) -> usize
    ensures place { result ≡ place_behind at (row_table first row) }
    ensures buffer { out.new ≡ laid (row_table first row) at out.old }
{
    let mut end = at;
    for area in bits::places(row) {
        let behind_first = output::put(out, end, first);
        end = output::put(out, behind_first, area);
    }
    end
}

// Writes the pairs whose first number is below the limit, each row once. The rows are counted in a byte, since it is
// written.
pub fn put_pairs(out: &mut [u8], at: usize, rows: &[u32], limit: u8) -> usize
    ensures place { result ≡ place_behind at (table_of limit (pair (cells_of rows.now))) }
    ensures buffer { out.new
        ≡ laid (table_of limit (pair (cells_of rows.now))) at out.old }
{
    let mut end = at;
    for first in 0..limit {
        end = put_row(out, end, first, relations::row_of(rows, first));
    }
    end
}

// How many pairs have a first number below the limit? (A `for`: the sum of a part of a slice would need a second
// function, for its bound.)
pub fn pair_count(rows: &[u32], limit: u8) -> u16
    ensures { result ≡ pair_count (table_of limit (pair (cells_of rows.now))) }
{
    let mut n: u16 = 0;
    for first in 0..limit {
        n += bits::size(relations::row_of(rows, first)) as u16;
    }
    n
}
