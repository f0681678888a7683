// The call that serves a list.
ghost use Rattle.std.specs.Prelude.{◌≡◌, map, reverse};
ghost use Rattle.wire.specs.Frames.{written};
ghost use Rattle.rules.specs.State.{service};
ghost use Rattle.rules.specs.Calls.{step, next, final, transcript};
ghost use Rattle.rules.specs.Standing.{standing};
ghost use Rattle.rules.specs.Laws.{Reached, QueueAnswersMakeTablesTrue, OutputsStayAsNamed, AskersAreTold, RightsHoldThroughout, OnNamedInputs};
ghost use Rattle.unit.specs.Units.{state_of};
ghost use Rattle.calls.specs.Listed.{call_of, buffer_of, lent, shown, shown_along, events, LastTableTrue};

use crate::list::{Call, ListedCall};
use fabric::Fabric;
use rules::refusal::Refusal;
use unit::Unit;

// One match on the calls: a table of functions is no plainer, since each has arguments of its own.
fn make<F: Fabric>(unit: &mut Unit<F>, call: &mut Call) -> Result<usize, Refusal>
    ensures same { call_of call.new ≡ call_of call.old }
    ensures answer { result ≡ (step (state_of F.meaning unit.old) (call_of call.old)).answer.result }
    ensures buffer { buffer_of call.new ≡ written (step (state_of F.meaning unit.old) (call_of call.old)).answer.reply (buffer_of call.old) }
    ensures after { state_of F.meaning unit.new ≡ next (state_of F.meaning unit.old) (call_of call.old) }
{
    match call {
        Call::Byte { port, byte, reply } => unit.byte(*port, *byte, reply),
        Call::Gap { port } => unit.gap(*port),
        Call::HangUp { port } => unit.hang_up(*port),
        Call::PanelSet { output, input } => unit.panel_set(*output, *input),
        Call::PanelLock { output, input } => unit.panel_lock(*output, *input),
        Call::PanelUnlock { output, input } => unit.panel_unlock(*output, *input),
        Call::EnterUser {
            number,
            name,
            password,
        } => unit.enter_user(*number, name, password),
    }
}

// Puts a unit in service over a fabric, in whatever state that is, and makes all calls of the list in order. Each call's answer and
// buffer are left beside it.
pub fn serve<F: Fabric>(fabric: F, address: u8, access: bool, calls: &mut [ListedCall]) -> Unit<F>
    ensures served { map shown calls.new ≡ shown_along (service address access (F.meaning fabric)) (map lent calls.old) }
    ensures state { state_of F.meaning result ≡ final (service address access (F.meaning fabric)) (map (λ x. call_of x.call) calls.old) }
    ensures made { events calls.new ≡ transcript (service address access (F.meaning fabric)) (map (λ x. call_of x.call) calls.old) }
    ensures reached { Reached address access (F.meaning fabric) (reverse (events calls.new)) (state_of F.meaning result) }
    ensures tables { QueueAnswersMakeTablesTrue (service address access (F.meaning fabric)) (events calls.new) }
    ensures outputs { OnNamedInputs (F.meaning fabric) (reverse (events calls.new)) (state_of F.meaning result) }
    ensures throughout { OutputsStayAsNamed (service address access (F.meaning fabric)) (events calls.new) }
    ensures askers { AskersAreTold (service address access (F.meaning fabric)) (events calls.new) }
    ensures standing { state_of F.meaning result ≡ standing address access (F.meaning fabric) (reverse (events calls.new)) }
    ensures rights { RightsHoldThroughout access (events calls.new) }
    ensures last { LastTableTrue (events calls.new) (state_of F.meaning result) }
{
    let mut unit = Unit::start(fabric, address, access);
    for listed in calls {
        listed.answer = Some(make(&mut unit, &mut listed.call));
    }
    unit
}
