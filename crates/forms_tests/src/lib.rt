#![tactic(auto)]

// Examples for the reader of forms.
#[cfg(test)]
mod readings;
