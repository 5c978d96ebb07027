// The laws of `plan`'s definitions: what follows from them, with no code.
#![tactic(auto)]
