//! Tests of the service layer.
//!
//! They show what no contract says: that lines are requests and values become JSON where there is
//! memory, what worked requests are answered, and how lines are read and answers written.

#[cfg(test)]
mod alike;
#[cfg(test)]
pub mod asked_again;
#[cfg(test)]
mod files;
#[cfg(test)]
mod finding;
#[cfg(test)]
pub mod in_parts;
#[cfg(test)]
pub mod in_three;
#[cfg(test)]
mod introspected;
#[cfg(test)]
pub mod joined;
#[cfg(test)]
pub mod kept_out;
#[cfg(test)]
mod lines;
#[cfg(test)]
mod plain;
#[cfg(test)]
mod rows;
#[cfg(test)]
mod schemas;
#[cfg(test)]
mod served;
#[cfg(test)]
mod serving;
#[cfg(test)]
pub mod spellings;
#[cfg(test)]
mod wide_numbers;
pub mod wide_scalar;
