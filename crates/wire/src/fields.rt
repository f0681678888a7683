// The fields of packets and replies. A reader takes its field from the front of a slice and hands back the rest;
// a writer gives the bytes of a number, if it fits.
// Digits are written by hand: the unit allocates nothing, and a field is an array.
ghost use Rattle.std.specs.Prelude.{◌≡◌, ◌<◌};
ghost use Rattle.wire.specs.Fields.{field, behind, read_digit, read_number, read_hex, read_mark, read_colon, hex_value, one_digit, three_digits, hex_digit, two_hex, if_below, DigitReadsBack, NumberReadsBack, HexReadsBack};

// How many bytes a name or a password has at the most.
pub const MOST_TEXT: usize = 10;

// One decimal digit.
pub fn read_digit(s: &[u8]) -> Option<(u8, &[u8])>
    ensures { field result ≡ read_digit s.now }
{
    match s {
        [a @ b'0'..=b'9', rest @ ..] => Some((*a - b'0', rest)),
        _ => None,
    }
}

// Three decimal digits.
pub fn read_number(s: &[u8]) -> Option<(u16, &[u8])>
    ensures { field result ≡ read_number s.now }
{
    match s {
        [a @ b'0'..=b'9', b @ b'0'..=b'9', c @ b'0'..=b'9', rest @ ..] => {
            let n = u16::from(*a - b'0') * 100 + u16::from(*b - b'0') * 10 + u16::from(*c - b'0');
            Some((n, rest))
        }
        _ => None,
    }
}

// The value of a hexadecimal digit in capitals; no `to_digit(16)`, which takes small letters, too.
pub fn hex_value(b: u8) -> Option<u8>
    ensures { result ≡ hex_value b }
{
    match b as char {
        '0'..='9' => Some(b - b'0'),
        'A'..='F' => Some(b - b'A' + 10),
        _ => None,
    }
}

// Two hexadecimal digits in capitals.
pub fn read_hex(s: &[u8]) -> Option<(u8, &[u8])>
    ensures { field result ≡ read_hex s.now }
{
    match s {
        [a, b, rest @ ..] => {
            let high = hex_value(*a)?;
            let low = hex_value(*b)?;
            Some((high * 16 + low, rest))
        }
        _ => None,
    }
}

// The byte `mark`: only the rest is handed back.
pub fn read_mark(s: &[u8], mark: u8) -> Option<&[u8]>
    ensures { behind result ≡ read_mark mark s.now }
{
    s.strip_prefix(&[mark])
}

// A colon.
pub fn read_colon(s: &[u8]) -> Option<&[u8]>
    ensures { behind result ≡ read_colon s.now }
{
    read_mark(s, b':')
}

// A number below 10. An `if`: `then_some` would add before it is known that the sum fits, and a closure for one line is no plainer.
pub fn one_digit(n: u8) -> Option<[u8; 1]>
    ensures answer { result ≡ if_below 10 n (one_digit n) }
    ensures law { DigitReadsBack n }
{
    if n < 10 { Some([b'0' + n]) } else { None }
}

// A number below 1000. Not one function with `one_digit` for every number of digits: the digits of N places need a loop.
pub fn three_digits(n: u16) -> Option<[u8; 3]>
    ensures answer { result ≡ if_below 1000 n (three_digits n) }
    ensures law { NumberReadsBack n }
{
    if n >= 1000 {
        return None;
    }
    Some([
        b'0' + (n / 100) as u8,
        b'0' + (n / 10 % 10) as u8,
        b'0' + (n % 10) as u8,
    ])
}

fn hex_digit(n: u8) -> u8
    requires { n < 16 }
    ensures { result ≡ hex_digit n }
{
    if n < 10 { b'0' + n } else { b'A' + (n - 10) }
}

// Every byte has two hexadecimal digits.
pub fn two_hex(n: u8) -> [u8; 2]
    ensures answer { result ≡ two_hex n }
    ensures law { HexReadsBack n }
{
    [hex_digit(n / 16), hex_digit(n % 16)]
}
