//! A pipeline read backwards: what came out of its last line, where each stage and each line kept
//! its rule.
#![tactic(auto)]

ghost use Rattle.pipe_laws.specs.Pipe.{IsReadBack, IsAsOne, IsChunkingByFlows, IsDecidingByFlows};

/// What was taken from the far end of a pipeline is told by what its source gave, whatever the
/// schedule.
pub fn pipe_read_back()
    ensures { IsReadBack }
{}

/// Each last item that was taken was sent by the stage before, so where no fault came out at the far
/// end the stages ended with the same one.
pub fn pipe_is_as_one()
    ensures { IsAsOne }
{}

/// What the chunking stage has sent, by its parts and its last item, is what the definition by
/// flows says.
pub fn chunking_is_by_flows()
    ensures { IsChunkingByFlows }
{}

/// What the deciding stage has sent, by its parts and its last item, is what the definition by flows says.
pub fn deciding_is_by_flows()
    ensures { IsDecidingByFlows }
{}
