// Laws about the rules: what is proved of the definitions alone. It has no code.
#![tactic(auto)]
