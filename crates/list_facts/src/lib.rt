//! Facts of lists and options that the proofs of several layers cite. They stand in `specs/`; there is no code.
#![tactic(auto)]
