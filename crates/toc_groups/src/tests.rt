// Data that was laid out by hand.
mod bytes;
mod files;
mod layouts;
mod loads;
