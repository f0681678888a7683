// The line that is printed for a reply.
ghost use Rattle.std.specs.Prelude.{◌≡◌, ◌+◌, ◌∷◌};
ghost use Rattle.wire.specs.Fields.{two_hex};
ghost use Rattle.rules.specs.PerPort.{number_of};
ghost use Rattle.bench.specs.Lines.{reply_line};
ghost use Rattle.bench.specs.Memory.{UnlessOutOfMemory};

use rules::port::Port;
use std::alloc::{AllocError, Global};
use wire::fields::two_hex;

fn port_digit(port: Port) -> u8
    ensures { result ≡ 0x30 + number_of port }
{
    b'0' + u8::from(port)
}

// By two_hex and no {:02X}, so that a clause says which bytes are printed.
fn spaced_hex(b: u8) -> [u8; 3]
    ensures { result ≡ 0x20 ∷ two_hex b }
{
    let [high, low] = two_hex(b);
    [b' ', high, low]
}

// The port's digit, then each byte as a space and two hexadecimal digits in capitals, then a line feed.
pub fn reply_line(heap: Global, port: Port, reply: &[u8]) -> Result<Vec<u8>, AllocError>
    ensures { UnlessOutOfMemory result (λ v. v.items ≡ reply_line (number_of port) reply.now) }
{
    let mut line = Vec::new(heap);
    line.push(port_digit(port))?;
    for b in reply {
        line.extend_from_slice(&spaced_hex(*b))?;
    }
    line.push(b'\n')?;
    Ok(line)
}
