//! What applications and tables give each other, as laws: functions without a body.

ghost use Rattle.application_tables.specs.Lawful.{LawfulLaw};
ghost use Rattle.application_tables.specs.Making.{LaterMadeLaw, NoneMadeLaw, OneMoreMadeLaw};
ghost use Rattle.application_tables.specs.Realizing.{RealizationLaw};
ghost use Rattle.application_tables.specs.Standing.{ShapedLaw, StandingLaw};

/// The table of congruent applications is lawful.
pub fn lawful()
    ensures { LawfulLaw }
{}

/// Where each shape is that of its name, the applications have the shapes of their names.
pub fn shaped()
    ensures { ShapedLaw }
{}

/// An assignment that makes the test of congruence true stands for a lawful table.
pub fn standing()
    ensures { StandingLaw }
{}

/// At the start no application was made.
pub fn none_made()
    ensures { NoneMadeLaw }
{}

/// A circuit may grow by other nodes.
pub fn later_made()
    ensures { LaterMadeLaw }
{}

/// An application is made last.
pub fn one_more_made()
    ensures { OneMoreMadeLaw }
{}

/// Each lawful table is realized by an assignment.
pub fn realization()
    ensures { RealizationLaw }
{}
