//! Laws of every order of a job.

ghost use Rattle.dt_run.specs.EveryOrder.{AllOrdersAgree};

/// Every list of units that the events of a job's plan allow is defined at every unit, and no node ever holds more words than its
/// bound in the plan. A complete one leaves every home with the statements' final numbers.
pub fn all_orders_agree()
    ensures { AllOrdersAgree }
{}
