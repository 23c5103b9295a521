// Tests of batches on examples and at their limits.
#![tactic(auto)]

#[cfg(test)]
mod adding;
#[cfg(test)]
mod asking;
#[cfg(test)]
mod editing;
#[cfg(test)]
mod samples;
