//! Tests of what no contract says: values from outside, texts, and each public function at a concrete type.

#![tactic(auto)]

#[cfg(test)]
mod arrangements;
#[cfg(test)]
mod calls;
#[cfg(test)]
mod checked_planner;
#[cfg(test)]
mod duals;
#[cfg(test)]
mod estimates;
#[cfg(test)]
mod given;
#[cfg(test)]
mod grants;
#[cfg(test)]
mod plain;
#[cfg(test)]
mod plays;
#[cfg(test)]
mod prints;
#[cfg(test)]
mod reversals;
#[cfg(test)]
mod rings;
#[cfg(test)]
mod shuttle;
#[cfg(test)]
mod sides;
#[cfg(test)]
mod sweeps;
#[cfg(test)]
mod swing;
#[cfg(test)]
mod texts;
#[cfg(test)]
mod thresholds;
