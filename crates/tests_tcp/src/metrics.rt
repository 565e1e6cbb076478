//! What a server counts, and the thread that tells it by HTTP.

mod asking;
mod conversing;
mod counting;
mod serving;
mod text;
