// Tests of the stocks and the maps on examples and at their limits.
#![tactic(auto)]

#[cfg(test)]
mod maps;
#[cfg(test)]
mod stocks;
