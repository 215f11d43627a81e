// Every printout has room in the lister's buffer. Nothing runs here: proofs/Room.antt has the statement about the definitions of
// lsm_format/specs, and the other files its parts.
#![tactic(auto)]
