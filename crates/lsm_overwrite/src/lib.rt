// Blind to spare bytes: what a file holds outside the bytes that document 01 lists has no effect on any answer.
// Nothing runs here. specs/Blind.antt has the statement about two files, proofs/ its proof; the definitions that it speaks of, with the
// list, are in lsm_format/specs.
#![tactic(auto)]
