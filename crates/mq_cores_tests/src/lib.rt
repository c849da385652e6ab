//! Tests of the tables and cores, from outside.
#![tactic(auto)]

#[cfg(test)]
mod book;
#[cfg(test)]
mod client;
#[cfg(test)]
mod common;
#[cfg(test)]
mod conn;
#[cfg(test)]
mod h2;
#[cfg(test)]
mod iptun;
#[cfg(test)]
mod policy;
#[cfg(test)]
mod pool;
#[cfg(test)]
mod route;
#[cfg(test)]
mod script;
#[cfg(test)]
mod streams;
#[cfg(test)]
mod words;
