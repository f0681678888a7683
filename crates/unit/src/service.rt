// The start of service.
ghost use Rattle.std.specs.Prelude.{◌≡◌, [], codes};
ghost use Rattle.replies.specs.Queues.{text};
ghost use Rattle.rules.specs.State.{service};
ghost use Rattle.rules.specs.Laws.{Reached};
ghost use Rattle.unit.specs.Units.{state_of};

use crate::state::Unit;
use fabric::Fabric;
use records::locks::Locks;
use records::masks::Masks;
use records::record::PortRecord;
use records::users::Users;
use replies::text::ShortText;
use rules::port::PerPort;

// The password of the Ethernet lock at first.
fn first_password() -> ShortText
    ensures { text result ≡ codes "Quintech" }
{
    ShortText::try_from(b"Quintech".as_slice()).unwrap()
}

impl<F: Fabric> Unit<F> {
    // Puts a unit in service over a fabric, in whatever state that is. Nothing is routed.
    pub fn start(fabric: F, address: u8, access: bool) -> Unit<F>
        ensures state { state_of F.meaning result ≡ service address access (F.meaning fabric) }
        ensures reached { Reached address access (F.meaning fabric) [] (state_of F.meaning result) }
    {
        Unit {
            fabric,
            address,
            access,
            locks: Locks::new(),
            masks: Masks::new(),
            keypad_locked: false,
            ethernet_locked: false,
            password: first_password(),
            users: Users::new(),
            ports: PerPort {
                one: PortRecord::new(),
                two: PortRecord::new(),
                three: PortRecord::new(),
            },
        }
    }
}
