// The run: estimate, residual check, evidence, hypothesis, and the subtraction where all of them allow it. Callers name
// it run::run, as the module has that name here.
#![tactic(auto)]

pub mod run;

pub use run::RunFigures;
