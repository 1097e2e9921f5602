// The lowest of the eight marks in a byte.
#![tactic(auto)]

mod table;

ghost use Rattle.std.specs.Prelude.{◌≡◌};
ghost use Rattle.marks.specs.Marks.{Lowest, lowest};

use table::LOWEST;

// The place (0 to 7) of the lowest mark set, 8 if none.
// The number 8 and no Option: so the claims and the C interface have it. The table is the one document 01 asks for.
pub fn lowest_mark(marks: u8) -> u8
    ensures equation { result ≡ lowest marks }
    ensures lowest_set { Lowest marks result }
{
    LOWEST[marks as usize]
}
