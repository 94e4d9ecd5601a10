// All small sheets: the family, the list of its sheets, the call that writes one of them. It has no code.
#![tactic(auto)]
