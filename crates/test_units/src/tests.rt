// The real objects, the desk of a tally, and texts.

mod system;
mod tally;
mod texts;
