// The lines of an input: four decimal numbers, read from their bytes.
#![tactic(auto)]

ghost use Rattle.std.specs.Prelude.{◌≡◌, [], ◌∷◌, ◌++◌, ◌==◌, Some, MatchOption, length, position};
ghost use Rattle.lines.specs.Words.{word_number};
ghost use Rattle.lines.specs.Digits.{with_digit, extended, Lacks};
ghost use Rattle.lines.specs.Lines.{line_number, line_by, line_of, first_line_of};
ghost use Rattle.lines.specs.Claims.{NumberOfFirst};

use instructions::Bytes;

// The first line of some bytes: its four numbers, or nothing if it is unreadable; and how many of the bytes it takes.
#[derive(Drop)]
pub struct First {
    pub line: Option<Bytes>,
    pub size: usize,
}

// The place of the first `at`.
fn index(bytes: &[u8], at: u8) -> Option<usize>
    ensures { result ≡ position (λ x. x == at) bytes.now }
{
    bytes.iter().position(|byte| *byte == at)
}

// The bytes in front of the first `at`, and those behind it.
fn split_once(bytes: &[u8], at: u8) -> Option<(&[u8], &[u8])>
    ensures { MatchOption result (Lacks at bytes.now)
        (λ parts. (bytes.now ≡ parts.0.now ++ (at ∷ parts.1.now)) × Lacks at parts.0.now) }
{
    let i = index(bytes, at)?;
    Some((&bytes[..i], &bytes[i + 1..]))
}

// n with one digit more, unless the byte is no digit, or the number is above 255.
fn with_digit(n: u8, byte: u8) -> Option<u8>
    ensures { result ≡ with_digit n byte }
{
    if !byte.is_ascii_digit() {
        return None;
    }
    n.checked_mul(10)?.checked_add(byte - b'0')
}

// The number of a word that stands for n, with one byte more; nothing follows 0.
fn extended(n: u8, byte: u8) -> Option<u8>
    ensures { result ≡ extended n byte }
{
    if n == 0 { None } else { with_digit(n, byte) }
}

// The number 0 to 255 that the word stands for. It is read by digits and not by `parse`, which takes a sign and leading
// zeros.
fn number(word: &[u8]) -> Option<u8>
    ensures { result ≡ word_number word.now }
{
    let (first, rest) = word.split_first()?;
    let mut n = with_digit(0, *first)?;
    for byte in rest {
        n = extended(n, *byte)?;
    }
    Some(n)
}

// The line of four numbers, if each is one.
fn line_by(code: Option<u8>, activator: Option<u8>, a: Option<u8>, b: Option<u8>) -> Option<Bytes>
    ensures { result ≡ line_by (code ∷ activator ∷ a ∷ b ∷ []) }
{
    Some(Bytes {
        code: code?,
        activator: activator?,
        a: a?,
        b: b?,
    })
}

// What a line says, its byte 10 left out. What stands behind the third space is the last number, or holds a space and
// is none.
fn read_line(text: &[u8]) -> Option<Bytes>
    ensures { result ≡ line_of text.now }
{
    let (first, others) = split_once(text, b' ')?;
    let (second, last_two) = split_once(others, b' ')?;
    let (third, fourth) = split_once(last_two, b' ')?;
    line_by(number(first), number(second), number(third), number(fourth))
}

// The first line of the bytes, and how many of them it takes. A line that no byte 10 ends is unreadable, and takes all
// of them. The line's number is 0, or 13 exactly where it is unreadable.
pub fn first_line(bytes: &[u8]) -> First
    ensures equation { result ≡ first_line_of bytes.now }
    ensures number { NumberOfFirst bytes.now (line_number result.line) }
{
    match split_once(bytes, b'\n') {
        Some((text, _)) => First {
            line: read_line(text),
            size: text.len() + 1,
        },
        None => First {
            line: None,
            size: bytes.len(),
        },
    }
}
