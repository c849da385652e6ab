//! Tests of the formats: what each reads and writes, from outside.
#![tactic(auto)]

#[cfg(test)]
mod addr;
#[cfg(test)]
mod capsule;
#[cfg(test)]
mod frame;
#[cfg(test)]
mod head;
#[cfg(test)]
mod hpack;
#[cfg(test)]
mod huff;
#[cfg(test)]
mod ipcaps;
#[cfg(test)]
mod iphdr;
#[cfg(test)]
mod target;
#[cfg(test)]
mod text;
#[cfg(test)]
mod wire;
