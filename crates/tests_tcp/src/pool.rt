//! The pool, over clients and a watch in memory, and how the threads of a lane follow each other, over a model of it.

mod crowds;
mod ends;
mod fakes;
mod held;
mod orders;
