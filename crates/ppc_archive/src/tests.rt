// Libraries, and the members that objects take of them.
mod choosing;
mod libraries;
mod views;
