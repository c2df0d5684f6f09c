// The ring of token views.
#![tactic(auto)]
