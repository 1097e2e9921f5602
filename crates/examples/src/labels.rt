// Asks the label finder for labels of a small file, and prints the part of the file that each gets.
ghost use Rattle.std.specs.Prelude.{◌≤◌};

use std::io;

// The founding state, and a label for area 0.
const FILE: [u8; 62] = [
    // version, length
    1, 0, 62, 0,
    // counts: one owner pair, one label
    1, 0, 0, 0, 0, 0, 0, 0, 0, 0, 1, 0,
    // offsets
    28, 0, 30, 0, 30, 0, 30, 0, 30, 0, 30, 0,
    // user 0 owns area 0
    0, 0,
    // the label of area 0: four bytes, and zeros behind them
    0, 4, b'H', b'a', b'l', b'l', 0, 0, 0, 0, 0, 0, 0, 0, 0, 0, 0, 0, 0, 0, 0, 0, 0, 0, 0, 0, 0, 0,
    0, 0, 0, 0,
];

// How many bytes the label of the area has in the file, which ends after `size` bytes, and the bytes.
fn tell(rt: &impl Print, name: &str, size: usize, area: u32) -> io::Result<()>
    requires { size ≤ 62 }
{
    let text = label_finder::label(&FILE[..size], area);
    let length = text.len();
    print!(rt; "{name}")?;
    print!(rt; ": {length} <")?;
    rt.write_all(text)?;
    println!(rt; ">")
}

// All of them.
pub fn run(rt: &impl Print) -> io::Result<()> {
    tell(rt, "the label of area 0", 62, 0)?;
    tell(rt, "of area 1, which has none", 62, 1)?;
    tell(rt, "of area 255", 62, 255)?;
    tell(rt, "of area 256", 62, 256)?;
    tell(
        rt,
        "of area 0, in the same file without its last byte",
        61,
        0,
    )
}
