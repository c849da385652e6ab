//! Names and their addresses.
ghost use Rattle.std.specs.Prelude.{◌≡◌, OnOk, OnErr, IfOk};
ghost use Rattle.std.specs.FinMap as map;

use mq_addr::Addr;
use mq_target::Name;
use mq_wire::NoMemory;
use std::alloc::Global;
use std::collections::BTreeMap;
use std::marker::Model;

/// The address of each name, for look-ups by bytes.
#[derive(Drop)]
pub struct Names {
    addrs: BTreeMap<Vec<u8>, Addr>,
}

impl Model for Names {
    ghost use Rattle.mq_policy.specs.Names.{NameTable, names_code, table_of};

    ghost Value = { NameTable };

    ghost coded = { names_code };

    ghost view = { λ names. table_of names.addrs };
}

impl Names {
    /// No names. This takes no memory.
    pub fn new(alloc: Global) -> Names
        ensures { result ≡ map.empty }
    {
        Names {
            addrs: BTreeMap::new(alloc),
        }
    }

    /// Gives a name its address, in place of the one that it had. `NoMemory` changes nothing.
    pub fn set(&mut self, alloc: Global, name: &Name, addr: Addr) -> Result<(), NoMemory>
        ensures ok { OnOk result (self.new ≡ map.insert self.old name.now addr) }
        ensures err { OnErr result (self.new ≡ self.old) }
    {
        let name = Vec::from_slice(alloc, name.as_slice())?;
        self.addrs.insert(name, addr)?;
        Ok(())
    }

    /// The address of a name.
    pub fn get(&self, name: &Name) -> Option<Addr>
        ensures { result ≡ map.get self.now name.now }
    {
        self.addrs.get(name.as_slice()).copied()
    }

    /// Equal names.
    pub fn copy(&self) -> Result<Names, NoMemory>
        ensures { IfOk result (λ copy. copy ≡ self.now) }
    {
        let addrs = self.addrs.clone()?;
        Ok(Names { addrs })
    }
}
