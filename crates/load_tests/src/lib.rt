#![tactic(auto)]

// Examples for loading a session file.
#[cfg(test)]
mod changes;
#[cfg(test)]
mod lending;
#[cfg(test)]
mod lent;
#[cfg(test)]
mod texts;
