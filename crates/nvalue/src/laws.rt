// The laws of counting, stated where the check asks for their proofs.
ghost use Rattle.nvalue.specs.Laws.{CountsBetweenAreCounts, DisjointWindowsBoundBelow, NvalueCounts};
ghost use Rattle.nvalue.specs.Laws.{ReplacingMovesByOne, ViolatedRunsBoundAbove};

pub fn nvalue_counts()
    ensures { NvalueCounts }
{}

pub fn replacing_moves_by_one()
    ensures { ReplacingMovesByOne }
{}

pub fn counts_between_are_counts()
    ensures { CountsBetweenAreCounts }
{}

pub fn disjoint_windows_bound_below()
    ensures { DisjointWindowsBoundBelow }
{}

pub fn violated_runs_bound_above()
    ensures { ViolatedRunsBoundAbove }
{}
