// What the name and the password of a user may be.
ghost use Rattle.std.specs.Prelude.{◌≡◌, not, ◌&&◌, ◌||◌, ◌==◌, nat_le};
ghost use Rattle.fabric.specs.Meaning.{within};
ghost use Rattle.wire.specs.Fields.{is_digit};
ghost use Rattle.rules.specs.Panel.{is_letter, every, starts_with_letter, is_name, is_password};

use crate::MOST_USERS;
use wire::fields::MOST_TEXT;

fn is_password_byte(b: u8) -> bool
    ensures { result ≡ (nat_le 0x20 b && (nat_le b 0x7E && not (b == 58))) }
{
    (b' '..=b'~').contains(&b) && b != b':'
}

fn starts_with_letter(name: &[u8]) -> bool
    ensures { result ≡ starts_with_letter name.now }
{
    name.first().is_none_or(|b| b.is_ascii_alphabetic())
}

fn are_name_bytes(name: &[u8]) -> bool
    ensures { result ≡ every (λ b. is_letter b || is_digit b) name.now }
{
    name.iter().all(|b| b.is_ascii_alphanumeric())
}

fn are_password_bytes(password: &[u8]) -> bool
    ensures { result ≡ every (λ b. nat_le 0x20 b && (nat_le b 0x7E && not (b == 58))) password.now }
{
    password.iter().all(|&b| is_password_byte(b))
}

fn is_name(name: &[u8]) -> bool
    ensures { result ≡ is_name name.now }
{
    name.len() <= MOST_TEXT && starts_with_letter(name) && are_name_bytes(name)
}

fn is_password(password: &[u8]) -> bool
    ensures { result ≡ is_password password.now }
{
    password.len() <= MOST_TEXT && are_password_bytes(password)
}

// Whether a user of this number may be entered with this name and password.
pub fn may_enter(number: u8, name: &[u8], password: &[u8]) -> bool
    ensures { result ≡ (within number 8 && (is_name name.now && is_password password.now)) }
{
    (1..=MOST_USERS).contains(&number) && is_name(name) && is_password(password)
}
