// The law of calls on a closed sheet, stated where the check asks for its proof.
ghost use Rattle.plan.specs.Laws.{RunsLeavePlans};

pub fn runs_leave_plans()
    ensures { RunsLeavePlans }
{}
