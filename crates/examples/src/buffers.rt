// Writes two transcripts into buffers that are too short, just long enough and longer, and prints what each buffer then
// holds. The first is that of standard input, the session of document 01 (73 bytes); the second that of an input that
// is too long (9 bytes). Each buffer is full of '#' before.
ghost use Rattle.std.specs.Prelude.{◌≤◌};

use std::io;
use std::io::Read;

// The transcript in a buffer of this length.
fn show(rt: &impl Print, input: &[u8], size: usize) -> io::Result<()>
    requires { size ≤ 80 }
{
    let mut longest = [b'#'; 80];
    let buffer = &mut longest[..size];
    let (refusal, length) = match transcript::write(input, buffer) {
        Ok(length) => (0, length),
        Err(refusal) => (refusal.number(), 0),
    };
    println!(rt; "a buffer of {size}: refusal {refusal}, length {length}")?;
    rt.write_all(buffer)?;
    println!(rt)
}

fn session(rt: &impl Print, input: &[u8]) -> io::Result<()> {
    for size in [0, 1, 72, 73, 76] {
        show(rt, input, size)?;
    }
    Ok(())
}

fn too_long(rt: &impl Print, input: &[u8]) -> io::Result<()> {
    for size in [8, 9, 12] {
        show(rt, input, size)?;
    }
    Ok(())
}

// Both, each into its buffers.
pub fn run<R: Read>(rt: &impl Print, input: &mut R) -> io::Result<()> {
    let mut bytes = [0u8; 4096];
    let count = input_reader::read_full(input, &mut bytes)?;
    session(rt, &bytes[..count])?;
    too_long(rt, &[0u8; 65537])
}
