//! Laws of summaries and deltas that travel as bytes, over the definitions alone. Each function
//! does nothing: its contract is the law.
ghost use Rattle.usfm_cli.specs.DeltaLaws as laws;

/// The summary of a set is read as the summary that was written.
pub fn summaries_are_read()
    ensures { laws.SummariesAreRead }
{}

/// A project that is given the summary which another one wrote writes the bundle of what it holds
/// outside that summary. It never refuses it.
pub fn deltas_answer_summaries()
    ensures { laws.DeltasAnswerSummaries }
{}

/// A project that receives what another one, without thinned operations, wrote for its summary
/// holds the union of both sets.
pub fn deltas_bring_union()
    ensures { laws.DeltasBringUnion }
{}
