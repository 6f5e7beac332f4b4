//! Lanes and sources; sessions: feeds, a writer, orders and readers at the same time, and what became of each message; the lock
//! and its readers, called once each; bodies, the model's instalment, and verdicts on a medium's files; and what counts, times and
//! refusals print.
#![tactic(auto)]

#[cfg(test)]
mod asks;
#[cfg(test)]
mod bodies;
#[cfg(test)]
mod counts;
#[cfg(test)]
mod handing;
#[cfg(test)]
mod inputs;
#[cfg(test)]
mod lane_inputs;
#[cfg(test)]
mod lanes;
#[cfg(test)]
mod levels;
#[cfg(test)]
mod lock;
#[cfg(test)]
mod losing;
#[cfg(test)]
mod machines;
#[cfg(test)]
mod meeting;
#[cfg(test)]
mod orders;
#[cfg(test)]
mod port_sources;
#[cfg(test)]
mod readers;
#[cfg(test)]
mod refusals;
#[cfg(test)]
mod run;
#[cfg(test)]
mod sessions;
#[cfg(test)]
mod sources;
#[cfg(test)]
mod verdicts;
#[cfg(test)]
mod window;
