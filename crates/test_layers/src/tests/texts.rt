//! Operation lines, the lines of outcomes, and beginnings of tree texts.
mod beginnings;
mod lines;
mod outcomes;
