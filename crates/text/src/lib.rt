#![tactic(auto)]

ghost use Rattle.std.specs.Prelude.{◌≡◌, ◌<◌};
ghost use Rattle.text.specs.Lines.{digit_text, field_text, field_number, line_numbers, Reads, all_small};
ghost use Rattle.text.specs.Writing.{written};

// Lines of fields: four bytes for each number, and a byte 10 at the end.

// The largest number that fits a field.
const LARGEST: u16 = 9999;

// Why a line is not written.
#[derive(Clone, Copy, Debug, PartialEq, Eq)]
pub enum Unwritten {
    // A number is above the largest that fits a field.
    Large,
    // The buffer is shorter than the line.
    Short,
}

// The number that four bytes are the text of: one, two, three or four digits after spaces.
fn field(a: u8, b: u8, c: u8, d: u8) -> Option<u16>
    ensures { result ≡ field_number a b c d }
{
    if !d.is_ascii_digit() {
        return None;
    }
    let ones = u16::from(d - b'0');
    if c == b' ' {
        return (a == b' ' && b == b' ').then_some(ones);
    }
    if !c.is_ascii_digit() {
        return None;
    }
    let tens = u16::from(c - b'0') * 10 + ones;
    if b == b' ' {
        return (a == b' ' && c > b'0').then_some(tens);
    }
    if !b.is_ascii_digit() {
        return None;
    }
    let hundreds = u16::from(b - b'0') * 100 + tens;
    if a == b' ' {
        return (b > b'0').then_some(hundreds);
    }
    // An `if`, since `then` takes a closure, which would not know of the test that the difference needs.
    if a.is_ascii_digit() && a > b'0' {
        Some(u16::from(a - b'0') * 1000 + hundreds)
    } else {
        None
    }
}

// The numbers of a line of N fields.
pub fn read_line<const N: usize>(bytes: &[u8]) -> Option<[u16; N]>
    ensures value { result ≡ line_numbers N bytes.now }
    ensures words { Reads N bytes.now result }
{
    let (fields, end) = bytes.as_chunks::<4>();
    if end != b"\n".as_slice() || fields.len() != N {
        return None;
    }
    let mut numbers = [0; N];
    // Written by index, here and below: a proof does not know what is written through an adapter of `iter_mut`.
    for (i, &[a, b, c, d]) in fields.iter().enumerate() {
        numbers[i] = field(a, b, c, d)?;
    }
    Some(numbers)
}

// The byte of a number at the digit of a weight. The casts here and below keep a digit whole, as is proved;
// `try_from` would add a branch that no call takes.
fn digit(n: u16, weight: u16) -> u8
    requires { 0 < weight }
    ensures { result ≡ digit_text n weight }
{
    if n < weight {
        b' '
    } else {
        b'0' + (n / weight % 10) as u8
    }
}

// The four bytes of a number.
fn digits(n: u16) -> [u8; 4]
    ensures { result ≡ field_text n }
{
    [
        digit(n, 1000),
        digit(n, 100),
        digit(n, 10),
        b'0' + (n % 10) as u8,
    ]
}

// Whether every number fits a field.
fn fit(numbers: &[u16]) -> bool
    ensures { result ≡ all_small numbers.now }
{
    numbers.iter().all(|n| *n <= LARGEST)
}

// Writes the line of the numbers to the front of the buffer, and answers its length. It is put in place where it is called, so
// that the compiler can use what it knows of the numbers there.
#[inline(always)]
pub fn write_line(numbers: &[u16], out: &mut [u8]) -> Result<usize, Unwritten>
    ensures { (result, out.new) ≡ written numbers.now out.old }
{
    if !fit(numbers) {
        return Err(Unwritten::Large);
    }
    let end = 4 * numbers.len();
    if out.len() <= end {
        return Err(Unwritten::Short);
    }
    for (i, n) in numbers.iter().enumerate() {
        out[4 * i..4 * i + 4].copy_from_slice(&digits(*n));
    }
    out[end] = b'\n';
    Ok(end + 1)
}

#[cfg(test)]
mod tests {
    use super::*;

    #[test]
    fn lines_are_read(rt: HostRuntime) {
        assert_eq!(rt;
            read_line::<6>(b"   0   9  10 9991000  42\n"),
            Some([0, 9, 10, 999, 1000, 42])
        );
        assert_eq!(rt;
            read_line::<7>(b"9999   0   1  20 3004000   5\n"),
            Some([9999, 0, 1, 20, 300, 4000, 5])
        );
        assert_eq!(rt; read_line::<0>(b"\n"), Some([]));
    }

    // A leading zero, a blank, a gap, a tab, a sign, a wrong end and a wrong length.
    #[test]
    fn other_texts_are_refused(rt: HostRuntime) {
        let texts: [&[u8]; 14] = [
            b"  01\n",
            b"0000\n",
            b"    \n",
            b"1   \n",
            b" 1 2\n",
            b"\t  1\n",
            b"  +1\n",
            b"  -1\n",
            b"   1",
            b"   1\r",
            b"   1 ",
            b"   1\n\n",
            b"   1   2\n",
            b"",
        ];
        for text in texts {
            assert_eq!(rt; read_line::<1>(text), None);
        }
    }

    #[test]
    fn a_line_is_written_over_the_front(rt: HostRuntime) {
        let mut out = *b"a buffer to fill";
        assert_eq!(rt; write_line(&[0, 42, 9999], &mut out), Ok(13));
        assert_eq!(rt; out, *b"   0  429999\nill");
    }

    #[test]
    fn a_refusal_leaves_the_buffer(rt: HostRuntime) {
        let mut out = *b"buffer";
        assert_eq!(rt; write_line(&[1, 10000], &mut out), Err(Unwritten::Large));
        assert_eq!(rt; write_line(&[1, 2], &mut out), Err(Unwritten::Short));
        assert_eq!(rt; write_line(&[1], &mut out[..4]), Err(Unwritten::Short));
        assert_eq!(rt; out, *b"buffer");
    }
}
