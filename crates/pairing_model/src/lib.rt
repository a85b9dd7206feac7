//! How the output lines of a run answer the lines of its script one by one, and what is kept and heard
//! by it. Definitions alone, in `specs/`, with laws in `proofs/`.
#![tactic(auto)]
