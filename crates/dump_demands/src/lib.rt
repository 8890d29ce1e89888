// No code: what the dump check promises, said from the papers by itself (specs/), and the proof that the check does exactly that.
#![tactic(auto)]
