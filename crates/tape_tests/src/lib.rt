//! Examples that run: tapes and the replies to them.

#![tactic(auto)]

#[cfg(test)]
mod commands;
#[cfg(test)]
mod cut;
#[cfg(test)]
mod data;
#[cfg(test)]
mod desk;
#[cfg(test)]
mod grants;
#[cfg(test)]
mod kinds;
#[cfg(test)]
mod mixed;
#[cfg(test)]
mod refusals;
#[cfg(test)]
mod sizes;
#[cfg(test)]
mod texts;
#[cfg(test)]
mod worked;
