// The data of a command, read from the bytes behind its letters.
ghost use Rattle.std.specs.Prelude.{◌≡◌};
ghost use Rattle.wire.specs.Fields.{short_text, behind};
ghost use Rattle.packets.specs.Data.{one_number, two_numbers, mask_data, at_colon, login_data};
ghost use Rattle.packets.specs.Decoding.{two_parts};

use wire::fields::{MOST_TEXT, read_colon, read_digit, read_number};

// Three digits.
pub(crate) fn one_number(s: &[u8]) -> Option<u16>
    ensures { result ≡ one_number s.now }
{
    let (n, end) = read_number(s)?;
    end.is_empty().then_some(n)
}

// Three digits, and three more.
pub(crate) fn two_numbers(s: &[u8]) -> Option<(u16, u16)>
    ensures { result ≡ two_numbers s.now }
{
    let (n, more) = read_number(s)?;
    let (m, end) = read_number(more)?;
    end.is_empty().then_some((n, m))
}

// 0 to 10 bytes.
pub(crate) fn short_text(s: &[u8]) -> Option<&[u8]>
    ensures { behind result ≡ short_text s.now }
{
    (s.len() <= MOST_TEXT).then_some(s)
}

// Colon, digit, colon, digit, colon, three digits.
pub(crate) fn mask_data(s: &[u8]) -> Option<(u8, u8, u16)>
    ensures { result ≡ mask_data s.now }
{
    let (group, s) = read_digit(read_colon(s)?)?;
    let (bit, s) = read_digit(read_colon(s)?)?;
    let (output, end) = read_number(read_colon(s)?)?;
    end.is_empty().then_some((group, bit, output))
}

// What stands before the first colon, and what stands behind it.
fn at_colon(s: &[u8]) -> Option<(&[u8], &[u8])>
    ensures { two_parts result ≡ at_colon s.now }
{
    let i = s.iter().position(|b| *b == b':')?;
    Some((&s[..i], &s[i + 1..]))
}

// Colon, a name of 1 to 10 bytes, colon, a password of 0 to 10 bytes.
pub(crate) fn login_data(s: &[u8]) -> Option<(&[u8], &[u8])>
    ensures { two_parts result ≡ login_data s.now }
{
    let (name, password) = at_colon(read_colon(s)?)?;
    let fit = (1..=MOST_TEXT).contains(&name.len()) && password.len() <= MOST_TEXT;
    fit.then_some((name, password))
}
