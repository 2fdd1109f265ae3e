//! The tests, a module for each subject.
mod claims;
mod crew;
mod endings;
mod example;
mod large;
mod stages;
mod taps;
mod windows;
