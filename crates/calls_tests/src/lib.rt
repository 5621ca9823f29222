#![tactic(auto)]

// Tests of the account's calls: what refuses each of them at both sides of each bound, margins of small accounts, and runs.
#[cfg(test)]
mod begins;
#[cfg(test)]
mod bounds;
#[cfg(test)]
mod figures;
#[cfg(test)]
mod markets;
#[cfg(test)]
mod runs;
#[cfg(test)]
mod tables;
