#![tactic(auto)]
// The images of K and E, built from their data: what the definitions answer on them stands in proofs/.
