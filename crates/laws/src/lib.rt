// No code: what the code above needs to know of the definitions of crate rules (specs/).
#![tactic(auto)]
