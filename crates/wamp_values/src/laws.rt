//! Laws of the definitions. Each is the contract of a function that does nothing.
ghost use Rattle.wamp_values.specs.Laws.{ReadsBack, FitAreTaken};

/// A value whose numbers are held exactly and whose keys are ordered is read back from what is written of it.
#[tactic(auto, using(crate::proofs::ReadBack::reads_back))]
pub fn reads_back()
    ensures { ReadsBack }
{}

/// Exactly the fit values, with no float and nested at most 126 deep, are taken as payloads.
#[tactic(auto, using(crate::proofs::Plain::fit_are_taken))]
pub fn fit_are_taken()
    ensures { FitAreTaken }
{}
