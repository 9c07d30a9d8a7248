#![tactic(auto)]
// Theorems alone: what each change request says of the old answers and the new. specs/ has the old definitions and the statements.
