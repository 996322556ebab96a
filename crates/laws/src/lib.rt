#![tactic(auto)]

// Laws alone, no code.
