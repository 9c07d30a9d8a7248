#![tactic(auto)]
// Examples for rule 3: concrete models to which it applies, and one to which it does not.
