// Texts that were worked by hand.
mod jobs;
mod rewritten;
mod texts;
