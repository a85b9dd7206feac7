//! Trials of the top call: words, scripts and memories, with the answers that they must have. They are run, and stand
//! apart from what they try, so that a change there proves none of them anew.
#![tactic(auto)]

#[cfg(test)]
mod bench_tests;
#[cfg(test)]
mod cert_tests;
#[cfg(test)]
mod cut_tests;
#[cfg(test)]
mod fault_tests;
#[cfg(test)]
mod init_tests;
#[cfg(test)]
mod line_tests;
#[cfg(test)]
mod memory_tests;
#[cfg(test)]
mod read_tests;
#[cfg(test)]
mod shown;
#[cfg(test)]
mod status_tests;
#[cfg(test)]
mod trial;
#[cfg(test)]
mod word_tests;
