// The keeper for other languages: exported functions over a lent block of words that holds the sitting.
// Any block, any lengths and any contents get an answer; a block of fewer than 321 words holds no sitting and is left alone.
// Numbers are cast by `as`, of which the check refuses one that would lose bits, so `From` would say no more.

#![tactic(auto)]

mod block;
mod calls;
mod changes;
mod choices;
mod codes;
mod images;
mod imports;
mod queries;
mod questions;
mod requests;
