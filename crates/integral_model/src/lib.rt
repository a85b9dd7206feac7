//! The exact integral of the energy of metering events, and when energies and bounds that were kept fit it.
//! Definitions, in `specs/`, and laws of them.
#![tactic(auto)]
