//! What a call leaves of its store, said once: frames that contracts name. It has no code.
#![tactic(auto)]
