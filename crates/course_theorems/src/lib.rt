// The course run of 01, shares that are final but not announced, and records that meet the relations of the mission's statements, over the
// definitions. The functions do nothing: their contracts are what was evaluated.
#![tactic(auto)]

ghost use Rattle.course_theorems.specs.Course.{Course};
ghost use Rattle.course_theorems.specs.Exclusions.{Exclusions};
ghost use Rattle.course_theorems.specs.Witnesses.{Witnesses};

// The course run of 01 over bytes, as one list of feeds from a fresh engine of 2,304 bytes and 13 words.
pub fn course_run()
    ensures { Course }
{}

// The two shares that the last sentence of the third statement leaves out: final, and pending without an announcement.
pub fn left_out()
    ensures { Exclusions }
{}

// The relations of the mission's statements are met, by records of the course run.
pub fn witnesses()
    ensures { Witnesses }
{}
