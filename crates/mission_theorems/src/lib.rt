// The mission's first and third statements. The functions do nothing: a contract is the statement, so that no check passes without the proof.
#![tactic(auto)]

ghost use Rattle.mission_theorems.specs.FirstStatement.{FirstStatement};
ghost use Rattle.mission_theorems.specs.ThirdStatement.{ThirdStatement};

pub fn first_statement()
    ensures { FirstStatement }
{}

pub fn third_statement()
    ensures { ThirdStatement }
{}
