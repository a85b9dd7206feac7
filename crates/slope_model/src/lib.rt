//! How the enthalpy of water rises with the temperature: its slope over two temperatures, and what a
//! range of slopes for each degree from 0 to 180 °C says. Definitions, in `specs/`.
#![tactic(auto)]
