// Definitions and theorems that every layer shares; no code. `specs/Below` says things of the numbers
// below a bound (a test holds at all of them, at how many, which is the lowest; lists joined),
// `specs/Tests` what Boolean tests and lists of them tell, `specs/Put` what pieces written into a buffer
// leave, `specs/Bits` the digits of numbers and their order over any width, `proofs/Ones` the number of
// ones. Theorems about `Below` and `Bits` stand in `proofs/`. It rests on the language's library alone.
#![tactic(auto)]
