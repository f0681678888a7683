// Which packets are for a unit.
ghost use Rattle.std.specs.Prelude.{◌≡◌};
ghost use Rattle.packets.specs.Address.{matches};

use wire::address::AddressBytes;
use wire::fields::read_hex;

// The address that every unit takes for its own.
const EVERY_UNIT: u8 = 0xFF;

// Whether the address bytes are FF, or `unit` as two hexadecimal digits in capitals.
pub fn is_addressed(unit: u8, address: AddressBytes) -> bool
    ensures { result ≡ matches unit address.high address.low }
{
    // A match: is_some_and was tried, and its proof does not close at half of the checker's limits.
    match read_hex(&[address.high, address.low]) {
        Some((addressed, _)) => addressed == EVERY_UNIT || addressed == unit,
        None => false,
    }
}
