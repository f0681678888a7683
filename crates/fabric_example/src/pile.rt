// A pile of fabrics as one: a bank with two inputs exchanged, a card, and a patch field.
ghost use Rattle.std.specs.Prelude.{◌≡◌, Err};
ghost use Rattle.fabric.specs.declared.fault.RouteFault.TheVariants.{OutOfRange, CannotBeMade};
ghost use Rattle.fabric_example.specs.Piles.{pile_meaning, new_pile};

use crate::patch::PatchField;
use fabric::{BankSetup, Card, Fabric, Join, RelayBank, RouteFault, Swap, route_all, route_both};

pub type Pile = Join<Join<Swap<RelayBank>, Card>, PatchField>;

// Inputs 1 to 4 are the bank's, with 2 and 3 exchanged and one relay bad; 5 to 14 the card's; 15 to 18 the patch field's.
pub fn assemble() -> Pile
    ensures { pile_meaning result ≡ new_pile }
{
    let mut setup = BankSetup::new(4, 4);
    setup.mark_bad(1, 2);
    let bank = Swap::new(setup.into_service(), 2, 3);
    Join::new(Join::new(bank, Card::new(10, 6)), PatchField::new())
}

// How many of five routings are accepted, and what feeds outputs 1, 2 and 3 afterwards.
pub fn routed() -> (usize, u16, u16, u16)
    ensures { result ≡ (3, 2, 9, 18) }
{
    let mut pile = assemble();
    let accepted = route_all(&mut pile, &[(1, 2), (1, 3), (2, 9), (3, 18), (3, 15)]);
    (accepted, pile.feeding(1), pile.feeding(2), pile.feeding(3))
}

// Two refusals: output 4 is outside the smallest count, and the bank's bad relay is input 3 of the pile.
pub fn refused() -> (Result<(), RouteFault>, Result<(), RouteFault>)
    ensures { result ≡ (Err OutOfRange, Err CannotBeMade) }
{
    let mut pile = assemble();
    route_both(&mut pile, (4, 1), (1, 3))
}

#[cfg(test)]
mod tests {
    use super::*;

    #[test]
    fn five_routings(rt: HostRuntime) {
        assert_eq!(rt; routed(), (3, 2, 9, 18));
    }

    #[test]
    fn two_refusals(rt: HostRuntime) {
        assert_eq!(rt;
            refused(),
            (Err(RouteFault::OutOfRange), Err(RouteFault::CannotBeMade))
        );
    }
}
