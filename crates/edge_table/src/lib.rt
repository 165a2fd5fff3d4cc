// 01's edge table. No code: specs/Table.antt is the table, proofs/Table.antt proves it from the definitions that the
// contracts of the other crates cite. No crate cites this one, so that what it computes costs no other check.
#![tactic(auto)]
