// The two readings of a reject, the old one and the one in which an owner may withdraw: definitions over a list of blocks, and the claims of what these mean.
#![tactic(auto)]

ghost use Rattle.final_readings_spec.specs.Claims.{Claims};
ghost use Rattle.final_readings_spec.specs.Examples.{Examples};

// Which reading of a reject a call asks for.
#[derive(Clone, Copy)]
pub enum Reading {
    Old,
    Withdrawing,
}

// What of a block is asked for: its votes or its rejects.
#[derive(Clone, Copy)]
pub enum Speech {
    Votes,
    Rejects,
}

// The computed answers are what the relations say, in both readings; how the new one differs from the old one, and where it does not.
pub fn claims()
    ensures { Claims }
{}

// Withdrawn votes over blocks: worked examples.
pub fn examples()
    ensures { Examples }
{}
