// The laws of plans and of firm windows, stated where the check asks for their proofs.
ghost use Rattle.rules.specs.Laws.{SettlingKeepsPlans, NoFirmNoPlan, PartsOfPlansArePlans, EarliestPlansJoin};

pub fn settling_keeps_plans()
    ensures { SettlingKeepsPlans }
{}

pub fn no_firm_no_plan()
    ensures { NoFirmNoPlan }
{}

pub fn parts_of_plans_are_plans()
    ensures { PartsOfPlansArePlans }
{}

pub fn earliest_plans_join()
    ensures { EarliestPlansJoin }
{}
