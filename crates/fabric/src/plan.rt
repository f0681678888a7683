// Several routings of one fabric.
ghost use Rattle.std.specs.Prelude.{◌≡◌};
ghost use Rattle.fabric.specs.Meaning.{answer, after};
ghost use Rattle.fabric.specs.Plans.{accepted, after_all};
ghost use Rattle.fabric.specs.Laws.{TwoOutputsInEitherOrder, AcceptedAreThoseThatCanBeMade, LastAcceptedStays};

use crate::{Fabric, RouteFault};

// A routing stays a pair: a struct is no plainer, since a plan is written `[(1, 2), (1, 3)]`, and its rules are over lists of pairs.

// Routes two pairs, each an output and an input. The order matters only for one and the same output.
pub fn route_both<F: Fabric>(
    fabric: &mut F,
    one: (u16, u16),
    other: (u16, u16),
) -> (Result<(), RouteFault>, Result<(), RouteFault>)
    ensures answer { result ≡ (answer (F.meaning fabric.old) one.0 one.1, answer (F.meaning fabric.old) other.0 other.1) }
    ensures after { F.meaning fabric.new ≡ after (after (F.meaning fabric.old) one.0 one.1) other.0 other.1 }
    ensures law { TwoOutputsInEitherOrder (F.meaning fabric.old) one other }
{
    let first = fabric.route(one.0, one.1);
    let second = fabric.route(other.0, other.1);
    (first, second)
}

// Routes each pair of an output and an input in order, going on after a refusal, and says how many were accepted.
pub fn route_all<F: Fabric>(fabric: &mut F, plan: &[(u16, u16)]) -> usize
    ensures answer { result ≡ accepted (F.meaning fabric.old) plan.now }
    ensures after { F.meaning fabric.new ≡ after_all (F.meaning fabric.old) plan.now }
    ensures count { AcceptedAreThoseThatCanBeMade (F.meaning fabric.old) plan.now }
    ensures law { LastAcceptedStays (F.meaning fabric.old) plan.now (F.meaning fabric.new) }
{
    // A loop: an iterator chain is no plainer, since its filter would have to change the fabric.
    let mut done = 0;
    for &(output, input) in plan {
        if fabric.route(output, input).is_ok() {
            done += 1;
        }
    }
    done
}
