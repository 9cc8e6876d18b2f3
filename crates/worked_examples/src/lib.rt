//! Worked examples: answers that come from outside of the crates below, and what none of their contracts says.
#![tactic(auto)]

#[cfg(test)]
mod call;
#[cfg(test)]
mod codes;
#[cfg(test)]
mod data;
#[cfg(test)]
mod examples;
#[cfg(test)]
mod faults;
#[cfg(test)]
mod inputs;
#[cfg(test)]
mod large;
#[cfg(test)]
mod library;
#[cfg(test)]
mod programs;
#[cfg(test)]
mod refusals;
#[cfg(test)]
mod row;
#[cfg(test)]
mod texts;
#[cfg(test)]
mod words;
