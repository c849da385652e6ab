//! Entries of address requests and assignments (RFC 9484, sections 4.7.1 and 4.7.2).
ghost use Rattle.std.specs.Prelude.{◌≡◌, ◌^◌, ◌≤◌, ◌++◌, length, take, OnOk, OnErr};
ghost use Rattle.mq_ipcaps.specs.Reading.{Tells, asked_at, block_at, given_at, is_prefix};
ghost use Rattle.mq_ipcaps.specs.Writing.{asked_text, block_text, given_text};

use super::capsule::{integer_size, write_integer};
use super::fault::CapsFault;
use super::field::{addr_at, addr_size, byte_at, integer_at, version, version_at, write_addr};
use super::item::Item;
use mq_addr::{Asked, Given, Prefix, free_bits, full_length, number};
use mq_wire::NoMemory;

/// One more than the largest integer that can be written (RFC 9000, section 16).
const LIMIT: u64 = 0x4000_0000_0000_0000;

/// An entry of a request: a Request ID that isn't 0, and a block.
impl Item for Asked {
    ghost MOST = { 16 };

    const MOST: usize = 16;

    ghost item_at = { λ _. asked_at };

    #[tactic(auto, unfolding(crate::specs::Reading::asked_at))]
    fn read(_: Option<Asked>, bytes: &[u8]) -> Result<(Asked, &[u8]), CapsFault>
        ensures { Tells (λ x. (x.0, x.1.now)) result (asked_at bytes.now) }
    {
        let (id, rest) = integer_at(bytes)?;
        if id == 0 {
            return Err(CapsFault::ZeroId);
        }
        let (block, rest) = block_at(rest)?;
        Ok((Asked { id, block }, rest))
    }

    ghost IsLarge = { λ entry. 2 ^ 62 ≤ entry.id };

    fn is_large(&self) -> bool {
        self.id >= LIMIT
    }

    ghost item_text = { asked_text };

    #[tactic(auto, unfolding(crate::specs::Writing::asked_text))]
    fn size(&self) -> u8 {
        integer_size(self.id) + block_size(&self.block)
    }

    #[tactic(auto, unfolding(crate::specs::Writing::asked_text))]
    fn write(&self, out: &mut Vec<u8>) -> Result<(), NoMemory> {
        write_integer(out, self.id)?;
        write_block(out, &self.block)
    }
}

/// An entry of an assignment: any Request ID, and a block.
impl Item for Given {
    ghost MOST = { 32 };

    const MOST: usize = 32;

    ghost item_at = { λ _. given_at };

    #[tactic(auto, unfolding(crate::specs::Reading::given_at))]
    fn read(_: Option<Given>, bytes: &[u8]) -> Result<(Given, &[u8]), CapsFault>
        ensures { Tells (λ x. (x.0, x.1.now)) result (given_at bytes.now) }
    {
        let (id, rest) = integer_at(bytes)?;
        let (block, rest) = block_at(rest)?;
        Ok((Given { id, block }, rest))
    }

    ghost IsLarge = { λ entry. 2 ^ 62 ≤ entry.id };

    fn is_large(&self) -> bool {
        self.id >= LIMIT
    }

    ghost item_text = { given_text };

    #[tactic(auto, unfolding(crate::specs::Writing::given_text))]
    fn size(&self) -> u8 {
        integer_size(self.id) + block_size(&self.block)
    }

    #[tactic(auto, unfolding(crate::specs::Writing::given_text))]
    fn write(&self, out: &mut Vec<u8>) -> Result<(), NoMemory> {
        write_integer(out, self.id)?;
        write_block(out, &self.block)
    }
}

/// A version, an address and a prefix length.
#[tactic(auto, unfolding(crate::specs::Reading::block_at))]
fn block_at(bytes: &[u8]) -> Result<(Prefix, &[u8]), CapsFault>
    ensures { Tells (λ x. (x.0, x.1.now)) result (block_at bytes.now) }
{
    let (version, rest) = version_at(bytes)?;
    let (addr, rest) = addr_at(version, rest)?;
    let (length, rest) = byte_at(rest)?;
    let block = Prefix { addr, length };
    if !is_prefix(&block) {
        return Err(CapsFault::Bits);
    }
    Ok((block, rest))
}

/// Whether the length fits the version, and no bit past it is set.
#[tactic(auto, unfolding(crate::specs::Reading::is_prefix))]
fn is_prefix(block: &Prefix) -> bool
    ensures { result ≡ is_prefix block.now }
{
    let free = free_bits(block);
    let bits = number(&block.addr);
    if block.length > full_length(&block.addr) {
        return false;
    }
    if free == 128 {
        bits == 0
    } else {
        bits % (1 << free) == 0
    }
}

/// How many bytes a block has.
#[tactic(auto, unfolding(crate::specs::Writing::block_text))]
fn block_size(block: &Prefix) -> u8
    ensures size { result ≡ length (block_text block.now) }
    ensures small { result ≤ 18 }
{
    2 + addr_size(&block.addr)
}

/// Writes a block at the end; an `Err` leaves a part of it.
#[tactic(auto, unfolding(crate::specs::Writing::block_text))]
fn write_block(out: &mut Vec<u8>, block: &Prefix) -> Result<(), NoMemory>
    ensures ok { OnOk result (out.new.items ≡ out.old.items ++ block_text block.now) }
    ensures err { OnErr result (take (length out.old.items) out.new.items ≡ out.old.items) }
{
    out.push(version(&block.addr))?;
    write_addr(out, &block.addr)?;
    out.push(block.length)?;
    Ok(())
}
