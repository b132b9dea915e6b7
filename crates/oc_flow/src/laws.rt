//! Laws of flow and of input.
ghost use Rattle.oc_flow.specs.Laws.{FlowsIsFlow, BringsIsBrings, FlowsByCallees, BringsByCallees};

/// The test of flow decides the relation.
pub fn flows_is_flow()
    ensures { FlowsIsFlow }
{}

/// The test of input decides the relation.
pub fn brings_is_brings()
    ensures { BringsIsBrings }
{}

/// The flow of a function is that by the flow of its callees.
pub fn flows_by_callees()
    ensures { FlowsByCallees }
{}

/// What a statement brings is that by what the statements of its callee bring.
pub fn brings_by_callees()
    ensures { BringsByCallees }
{}
