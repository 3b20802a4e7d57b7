// Lines of the course language: what is read of good ones, and why the others are refused.
#![tactic(auto)]

#[cfg(test)]
mod good;
#[cfg(test)]
mod malformed;
#[cfg(test)]
mod shown;
