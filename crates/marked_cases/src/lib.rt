// Document 01's marked cases. Nothing runs here: specs/Marked.antt is the table of them, each a row about the definitions of
// lsm_format/specs, and proofs/Table.antt proves it. proofs/Listed.antt, proofs/Second.antt and proofs/Third.antt state the list of the
// bytes that are read of three small files, G, H and J, and proofs/Handed.antt what plane, region and lookup answer where description,
// table and file don't belong together; proofs/Series.antt states the time series of request 1, proofs/Interleaved.antt the
// interleaved channels of request 2, proofs/Bits.antt the bits for each channel of request 3, and proofs/Signed.antt the signed types of
// request 5. These are computed from the definitions alone. proofs/Spare.antt says of small files what
// lsm_overwrite states of every file.
#![tactic(auto)]
