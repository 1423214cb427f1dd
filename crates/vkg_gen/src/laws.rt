// Laws of the report.
ghost use Rattle.vkg_gen.specs.Report.{IsDetermined};

/// The lines on a company are determined by the number of its employees.
#[tactic(auto, using(crate::proofs::One::one_report))]
pub fn is_determined()
    ensures { IsDetermined }
{}
