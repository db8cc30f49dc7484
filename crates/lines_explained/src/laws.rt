//! What holds of what is said of an activation, by the definitions alone.
ghost use Rattle.lines_explained.specs.Laws.{CourseLaw};

/// What the counts of dones say of the activation is what the acts say: it begins by the act, goes
/// on with a done, or ends.
#[tactic(auto, using(crate::proofs::CourseByCounts::course_law))]
pub fn course_law()
    ensures { CourseLaw }
{}
