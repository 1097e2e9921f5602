// Text written into a buffer: bytes and numbers one behind the other; or a whole text, and nothing where the buffer is
// too short.
#![tactic(auto)]

ghost use Rattle.std.specs.Prelude.{◌≡◌, [], ◌∷◌};
ghost use Rattle.output.specs.Decimal.{decimal};
ghost use Rattle.output.specs.Buffer.{laid, place_behind, as_written, written_of, buffer_of};

use verdicts::Refusal;

// Writes the byte if the buffer goes so far, and answers the place behind it. The functions below do so with their
// texts: in a buffer of no bytes they only count. Buffer and place are two values: a struct that holds both would add
// to each contract, here and above, that it keeps the caller's buffer. The byte is written by its index, since behind
// a write through `get_mut` a proof knows the buffer's length alone.
pub fn put(out: &mut [u8], at: usize, byte: u8) -> usize
    ensures place { result ≡ place_behind at (byte ∷ []) }
    ensures buffer { out.new ≡ laid (byte ∷ []) at out.old }
{
    if at < out.len() {
        out[at] = byte;
        // Inside the buffer no sum saturates, and a saturating one would cost as much as the write.
        return at + 1;
    }
    at.saturating_add(1)
}

pub fn put_text(out: &mut [u8], at: usize, text: &[u8]) -> usize
    ensures place { result ≡ place_behind at text.now }
    ensures buffer { out.new ≡ laid text.now at out.old }
{
    let mut end = at;
    for byte in text {
        end = put(out, end, *byte);
    }
    end
}

// A number in decimal: the digits of its tenth, then its last digit.
pub fn put_decimal(out: &mut [u8], at: usize, n: usize) -> usize
    ensures place { result ≡ place_behind at (decimal n) }
    ensures buffer { out.new ≡ laid (decimal n) at out.old }
{
    // By hand: each byte is counted and laid as the promise says, in a buffer of any length.
    if n < 10 {
        return put(out, at, 48 + n as u8);
    }
    let end = put_decimal(out, at, n / 10);
    put(out, end, 48 + (n % 10) as u8)
}

// A space, and a number.
pub fn put_spaced(out: &mut [u8], at: usize, n: usize) -> usize
    ensures place { result ≡ place_behind at (32 ∷ decimal n) }
    ensures buffer { out.new ≡ laid (32 ∷ decimal n) at out.old }
{
    let behind_space = put(out, at, 32);
    put_decimal(out, behind_space, n)
}

// Writes the text, and answers how many bytes it has; or nothing where the buffer is too short.
pub fn write_text(text: &[u8], output: &mut [u8]) -> Result<usize, Refusal>
    ensures written { as_written result ≡ written_of text.now output.old }
    ensures buffer { output.new ≡ buffer_of text.now output.old }
{
    if output.len() < text.len() {
        return Err(Refusal::BufferLength);
    }
    put_text(output, 0, text);
    Ok(text.len())
}
