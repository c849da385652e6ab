//! Tests of the objects in memory, of actors and of the client, from outside.
#![tactic(auto)]

#[cfg(test)]
mod common;
#[cfg(test)]
mod held;
#[cfg(test)]
mod mail;
#[cfg(test)]
mod mem;
#[cfg(test)]
mod parcels;
#[cfg(test)]
mod plain;
#[cfg(test)]
mod ports;
#[cfg(test)]
mod pump;
#[cfg(test)]
mod turn;
#[cfg(test)]
mod udp;
