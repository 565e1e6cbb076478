//! Tests of places with one client each, of runs whose clients are served by lanes, and of what each kind of gate answers, by public calls.
//! They stand in a crate of their own, so that `rs_places_steps` and `rs_places` are not proved a second time with them.
#![tactic(auto)]

#[cfg(test)]
mod answers;
#[cfg(test)]
mod lanes;
#[cfg(test)]
mod places;
