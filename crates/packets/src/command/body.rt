// Which command a body is: by its first one, two or three letters, the longest that fit.
ghost use Rattle.std.specs.Prelude.{◌≡◌, MatchOption, IsOkAnd};
ghost use Rattle.std.specs.Option.{ForSome};
ghost use Rattle.packets.specs.Commands.{decode, bare};
ghost use Rattle.packets.specs.Decoding.{command, outcome};
ghost use Rattle.packets.specs.Sending.{LongestLettersDecide, DecodesWhatIsSent, OnlySentBodiesAreDecoded};

use super::Command;
use super::data_bytes::{login_data, mask_data, one_number, short_text, two_numbers};
use crate::packet::PacketFault;

// A command without data.
fn without_data<'a>(c: Command<'a>, rest: &[u8]) -> Result<Command<'a>, PacketFault>
    ensures { outcome result ≡ bare (command c.entry) rest.now }
{
    if rest.is_empty() {
        Ok(c)
    } else {
        Err(PacketFault::WrongData)
    }
}

// A command of the data that were read, if they were.
// A `match` and no `read.map(command)`: tried, and there is no proof of a `map` whose closure gives a command that borrows.
fn with_data<'a, T, F: FnOnce(T) -> Command<'a>>(
    read: Option<T>,
    command: F,
) -> Result<Command<'a>, PacketFault>
    requires { ForSome read (F.pre command) }
    ensures { MatchOption read (result ≡ Err PacketFault.WrongData) (λ d. IsOkAnd result (F.post command d)) }
{
    match read {
        Some(d) => Ok(command(d)),
        None => Err(PacketFault::WrongData),
    }
}

pub fn decode<'a>(body: &'a [u8]) -> Result<Command<'a>, PacketFault>
    ensures answer { outcome result ≡ decode body.now }
    ensures longest { LongestLettersDecide body.now }
    ensures sent { DecodesWhatIsSent }
    ensures only { OnlySentBodiesAreDecoded }
{
    match body {
        [b'E', b'L', b'D', rest @ ..] => with_data(
            short_text(rest),
            |password| Command::UnlockEthernet { password },
        ),
        [b'E', b'L', b'E', rest @ ..] => without_data(Command::LockEthernet, rest),
        [b'E', b'L', b'P', rest @ ..] => with_data(
            short_text(rest),
            |password| Command::SetPassword { password },
        ),
        [b'K', b'L', rest @ ..] => without_data(Command::LockKeypad, rest),
        [b'K', b'S', rest @ ..] => without_data(Command::ShowKeypad, rest),
        [b'K', b'U', rest @ ..] => without_data(Command::UnlockKeypad, rest),
        [b'O', b'S', rest @ ..] => with_data(
            one_number(rest),
            |output| Command::AskStatus { output },
        ),
        [b'Z', b'A', rest @ ..] => with_data(
            mask_data(rest),
            |(group, bit, output)| Command::SetMask { group, bit, output },
        ),
        [b'Z', b'C', rest @ ..] => without_data(Command::AskLogin, rest),
        [b'Z', b'I', rest @ ..] => with_data(
            login_data(rest),
            |(name, password)| Command::LogIn { name, password },
        ),
        [b'C', rest @ ..] => without_data(Command::AskFlags, rest),
        [b'F', rest @ ..] => without_data(Command::AskVersion, rest),
        [b'L', rest @ ..] => with_data(
            two_numbers(rest),
            |(output, input)| Command::LockOutput { output, input },
        ),
        [b'O', rest @ ..] => with_data(one_number(rest), |output| Command::AskInput { output }),
        [b'Q', rest @ ..] => without_data(Command::ReadQueue, rest),
        [b'S', rest @ ..] => with_data(
            two_numbers(rest),
            |(output, input)| Command::SetOutput { output, input },
        ),
        [b'U', rest @ ..] => with_data(
            two_numbers(rest),
            |(output, input)| Command::UnlockOutput { output, input },
        ),
        _ => Err(PacketFault::Unlisted),
    }
}
