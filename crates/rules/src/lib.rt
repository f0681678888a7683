// The rules of the unit, as definitions in specs/, with the laws that hold of all its runs; and the small types that the rules speak of.
#![tactic(auto)]

ghost use Rattle.rules.specs.Cases.{WorkedCases};
ghost use Rattle.rules.specs.Causes.{CausesRunDownTheTable};
ghost use Rattle.rules.specs.Examples.{PacketExamples, ChangeExamples, EthernetExamples, RightExamples, CallExamples, BoundExamples, TableExamples, LawExamples};
ghost use Rattle.rules.specs.Laws.{QueueAnswersAlwaysMakeTablesTrue, OutputsAlwaysStayAsNamed, AskersAreAlwaysTold, UnitIsAlwaysWhatStands, RightsAlwaysHold, RefusedCallsChangeNothing, WithoutAckOnlyTheReceiverChanges, LawsHoldAfterEachCall};

pub mod fault;
pub mod port;
pub mod refusal;

// The worked cases of the line protocol follow from the rules. A law needs a function to stand on.
pub fn worked_cases()
    ensures { WorkedCases }
{}

// So do examples on the rules that are easily got wrong.
pub fn examples()
    ensures packet { PacketExamples }
    ensures change { ChangeExamples }
    ensures ethernet { EthernetExamples }
    ensures right { RightExamples }
    ensures call { CallExamples }
    ensures bound { BoundExamples }
    ensures table { TableExamples }
    ensures law { LawExamples }
{}

// What holds of every run of a unit by the rules.
pub fn laws_hold()
    ensures tables { QueueAnswersAlwaysMakeTablesTrue }
    ensures outputs { OutputsAlwaysStayAsNamed }
    ensures askers { AskersAreAlwaysTold }
    ensures standing { UnitIsAlwaysWhatStands }
    ensures rights { RightsAlwaysHold }
    ensures refused { RefusedCallsChangeNothing }
    ensures unacknowledged { WithoutAckOnlyTheReceiverChanges }
    ensures causes { CausesRunDownTheTable }
    ensures calls { LawsHoldAfterEachCall }
{}
