// Theorems alone: calls that meet every premise of a theorem, so that none is empty. They stand apart from the theorems, since a must-fail edit checks its
// crate whole and these are computed.
#![tactic(auto)]
