#![tactic(auto)]

// Examples for the number reader and the shape of the text.
#[cfg(test)]
mod numbers;
#[cfg(test)]
mod shapes;
