// The place of an include among the stored blocks, and a set of owners in two words: definitions.

#![tactic(auto)]
