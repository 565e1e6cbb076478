//! Tests of journals by their public calls. They stand in a crate of their own, so that `rs_journal` is not proved a second time with
//! them.
#![tactic(auto)]

#[cfg(test)]
mod crashes;
#[cfg(test)]
mod faulty;
#[cfg(test)]
mod headers;
#[cfg(test)]
mod kept;
#[cfg(test)]
mod real;
#[cfg(test)]
mod script;
#[cfg(test)]
mod syncs;
#[cfg(test)]
mod texts;
