// What holds of single calls and of every list of calls, proved from the definitions that the entry
// points' contracts equal; no code. `specs/Calls` says what each call tells and leaves. `specs/Demand3`
// states demand 3, `proofs/Demand3Proof` proves it from `Forms`, `Attempts` and `Reached`, and
// `proofs/Fronts` says that it holds after each call. `specs/Refused` says that a refusal leaves all as
// it was (demand 1), `specs/Fifteen` when 15 is given (request P4), `specs/Secrets` what is never shown
// and when a key is loaded, `specs/HeldKeys` that keys are held only while the HEK is available,
// `specs/Orders` and `specs/Recovery` what holds of orders and replies (P5), `specs/Handles` that no
// handle is given twice (P6), `specs/Zeroize` what a ZEROIZE leaves and answers, `specs/Guides` that
// only its word depends on flag 8 (P7), `specs/Charge` that the fuses newly set add up (P8), and
// `specs/SmallDrive` computes document 01's cases 1 to 10, as P4, P5 and P8 change them. The claims
// stand in `specs/`, their theorems in `proofs/`. It rests on `direct`, `erasure` and `mailbox`, and on
// what lies below them.
#![tactic(auto)]
