//! What budgets promise of runs.
ghost use Rattle.oc_budget.specs.Bounding.{BudgetsBound};

/// The budgets of every marked program bound the runs of its code.
pub fn budgets_bound()
    ensures { BudgetsBound }
{}
