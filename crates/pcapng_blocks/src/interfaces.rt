//! The interfaces of a section.

ghost use Rattle.std.specs.Prelude.{[], ◌++◌, ◌≡◌, ◌<◌, length, IfOk};
ghost use Rattle.std.specs.Option.{option_to_list};
ghost use Rattle.pcapng_blocks.specs.Fields.{interface_at};
ghost use Rattle.pcapng_blocks.specs.Interface.{arrival_of};
ghost use Rattle.pcapng_blocks.specs.Section.{CanAdd, interfaces_after};

use crate::block::Kind;
use crate::interface::{Interface, arrival};
use avtp_base::NoMemory;
use std::alloc::Global;
use std::marker::Model;

/// The greatest number of interfaces that a section may have.
pub const INTERFACE_LIMIT: usize = 256;

/// The interfaces of a section, in order. There is room for 256 of them, and each resolution is accepted.
#[derive(Debug, Drop)]
pub struct Interfaces {
    list: Vec<Interface>,
}

impl Model for Interfaces {
    ghost use Rattle.std.specs.Prelude.{List, vec_capacity};
    ghost use Rattle.pcapng_blocks.specs.declared.interface.Interface.{Interface};
    ghost use Rattle.pcapng_blocks.specs.state.Fields.{AreInterfaces};

    ghost Value = { List Interface };

    ghost view = { λ s. s.list.items };

    ghost invariant = { λ s. AreInterfaces s.list.items (vec_capacity s.list) };
}

impl Interfaces {
    /// No interfaces, with the memory for 256 of them.
    pub fn new(alloc: Global) -> Result<Self, NoMemory>
        ensures { IfOk result (λ interfaces. interfaces ≡ []) }
    {
        let Ok(list) = Vec::with_capacity(alloc, INTERFACE_LIMIT) else {
            return Err(NoMemory);
        };
        Ok(Interfaces { list })
    }

    /// How many interfaces there are.
    #[inline(always)]
    pub fn len(&self) -> usize
        ensures { result ≡ length self.now }
    {
        self.list.len()
    }

    /// The arrival of a packet at the interface with this number, in nanoseconds. `None` if the arrival is before the
    /// epoch, or at least 2^32 seconds after the epoch.
    #[inline(always)]
    pub fn arrival(&self, id: usize, timestamp: u64) -> Option<i64>
        requires { id < length self.now }
        ensures { result ≡ arrival_of (interface_at self.now id) timestamp }
    {
        arrival(self.list[id], timestamp)
    }

    /// Once the fixed fields of a block were read, updates the interfaces: a section header begins a section without
    /// interfaces.
    pub fn settle(&mut self, kind: Kind)
        ensures { self.new ≡ interfaces_after kind self.old }
    {
        if let Kind::Section = kind {
            self.list.clear();
        }
    }

    /// Adds the interface that a block described, if any.
    pub fn add_described(&mut self, interface: Option<Interface>)
        requires { CanAdd self.old interface }
        ensures { self.new ≡ self.old ++ option_to_list interface }
    {
        if let Some(interface) = interface {
            let Ok(()) = self.list.push(interface) else {
                unreachable!()
            };
        }
    }
}
