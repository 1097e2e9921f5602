// PanelRights: reads lines of instructions from standard input, and prints what becomes of each and the counts of the
// state at the end.
#![tactic(auto)]

use std::io;

// Reads to the end of the input, or until it is too long, which one byte more than the most shows. What is printed is
// `transcript::print`'s. A read or a write that fails is the error of the program.
fn main(rt: HostRuntime) -> io::Result<()> {
    let mut input = [0u8; transcript::MOST_READ + 1];
    let count = input_reader::read_full(&mut rt.stdin(), &mut input)?;
    let mut output = [0u8; transcript::MOST_PRINTED];
    let length = transcript::print(&input[..count], &mut output);
    rt.write_all(&output[..length])
}
