// The numbers that the pairs of a relation name, as a set.
#![tactic(auto)]

ghost use Rattle.std.specs.Prelude.{◌≡◌, ◌*◌};
ghost use Rattle.bits.specs.Bits.{word};
ghost use Rattle.bits.specs.Rows.{cells_of};
ghost use Rattle.state.specs.Walk.{has_first};
ghost use Rattle.relations.specs.Relations.{firsts, seconds};

// The numbers below 32 that are the first of some pair, as a row.
fn firsts_of(rows: &[u32]) -> u32
    ensures { result ≡ word 32 (has_first (cells_of rows.now)) }
{
    let mut out: u32 = 0;
    // k is the number that is asked about, and its place in the row; no slice is indexed.
    for k in 0..32u8 {
        out = bits::with_bit(out, k, relations::in_row(rows, k));
    }
    out
}

// The numbers below N * 32 that are the first of some pair.
pub fn firsts<const N: usize>(rows: &[u32]) -> [u32; N]
    ensures { cells_of result ≡ firsts (N * 32) (cells_of rows.now) }
{
    let mut out = [0; N];
    let mut rest = rows;
    for row in out.iter_mut() {
        *row = firsts_of(rest);
        rest = &rest[rest.len().min(32)..];
    }
    out
}

// The areas that are the second of some pair.
pub fn seconds(rows: &[u32]) -> [u32; 1]
    ensures { cells_of result ≡ seconds (cells_of rows.now) }
{
    [relations::seconds(rows)]
}
