// Why finality can be trusted while blocks still arrive: two certificates always meet, and what is final stays final, in both readings.
// The functions do nothing: a contract is the theorem, so that no check passes without the proof.
#![tactic(auto)]

ghost use Rattle.trust_theorems.specs.Meeting.{CertificatesMeet};
ghost use Rattle.trust_theorems.specs.Staying.{StaysFinal};
ghost use Rattle.trust_theorems.specs.Slips.{SlipsStay};
ghost use Rattle.trust_theorems.specs.Loads.{LoadablesStay};

// Any two certificates have owners of valid stake in common.
pub fn certificates_meet()
    ensures { CertificatesMeet }
{}

// What is final stays final after every further list of feeds, and what was named or listed stays named and listed.
pub fn stays_final()
    ensures { StaysFinal }
{}

// The slip that was accepted before is accepted after.
pub fn slips_stay()
    ensures { SlipsStay }
{}

// What was loadable before is loadable after.
pub fn loadables_stay()
    ensures { LoadablesStay }
{}
