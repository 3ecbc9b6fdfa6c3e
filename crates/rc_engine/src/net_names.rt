//! The nets of a layout by their names.

ghost use Rattle.std.specs.Prelude.{◌≡◌, ◌≢◌, AllPairs, IfOk, IfSome, length, map, position, ◌<◌};
ghost use Rattle.std.specs.Str.{bytes_eq};

use indexmap::IndexSet;
use rc_fixed::NoMemory;
use rc_layout::Net;
use std::alloc::Global;
use std::marker::Model;

/// The names of nets, in their order, each with its hash. Contracts see the list of them. An edit of a net's wiring changes
/// nothing of it.
#[derive(Drop)]
pub struct NetNames {
    names: IndexSet<Vec<u8>>,
}

impl Model for NetNames {
    ghost use Rattle.std.specs.Prelude.{List, ℕ, map};

    ghost Value = { List (List ℕ) };

    ghost view = { λ names. map (λ key. key.items) names.names.keys };
}

impl NetNames {
    /// The names of nets.
    ///
    /// # Errors
    ///
    /// `NoMemory` for want of memory.
    pub fn new(alloc: Global, nets: &[Net]) -> Result<NetNames, NoMemory>
        requires { AllPairs (λ a b. a.name ≢ b.name) nets.now }
        ensures { IfOk result (λ names. names ≡ map (λ net. net.name) nets.now) }
    {
        let mut names: IndexSet<Vec<u8>> = IndexSet::new(alloc);
        for net in nets {
            names.insert(Vec::from_slice(alloc, net.name.bytes())?)?;
        }
        Ok(NetNames { names })
    }

    /// The place of a name; None exactly where no net has it.
    pub fn place(&self, name: &[u8]) -> Option<usize>
        ensures place { result ≡ position (bytes_eq name.now) self.now }
        ensures within { IfSome result (λ place. place < length self.now) }
    {
        self.names.get_index_of(name)
    }
}
