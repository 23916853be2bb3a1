//! The controller file: checks any bytes, and writes the file of a controller.

#![tactic(auto)]

pub mod agreement;
pub mod certificate;
pub mod checking;
pub mod opening;
pub mod reading;
pub mod records;
#[cfg(test)]
mod tests;
pub mod trailer;
pub mod window;
pub mod writing;
