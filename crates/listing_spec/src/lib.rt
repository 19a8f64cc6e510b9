// Definitions: what `listing` prints, from the bytes of its input and the file of stakes.

#![tactic(auto)]
