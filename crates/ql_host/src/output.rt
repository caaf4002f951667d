//! What a run has printed.

ghost use Rattle.std.specs.Prelude.{◌≡◌, [], ◌<◌, ◌≤◌, ◌++◌, OnOk, length};

use std::alloc::{AllocError, Global};
use std::marker::Model;

/// The bytes that a run has printed.
#[derive(Drop)]
pub struct Output {
    bytes: Vec<u8>,
}

impl Model for Output {
    ghost use Rattle.std.specs.Prelude.{◌-◌, vec_capacity, vec_len};
    ghost use Rattle.ql_host.specs.Output as seen;

    ghost Value = { seen.Output };

    ghost view = { λ o. record { bytes = o.bytes.items; spare = vec_capacity o.bytes - vec_len o.bytes } };
}

impl Output {
    /// Nothing was printed yet.
    pub fn new(alloc: Global) -> Output
        ensures { result.bytes ≡ [] }
    {
        Output {
            bytes: Vec::new(alloc),
        }
    }

    /// Makes room for so many more bytes.
    pub fn reserve(&mut self, n: u64) -> Result<(), AllocError>
        ensures same { self.new ≡ record self.old { spare = self.new.spare } }
        ensures ok { OnOk result (n ≤ self.new.spare) }
        ensures spare { self.old.spare ≤ self.new.spare }
    {
        self.bytes.reserve(n as usize)
    }

    /// How many bytes there are.
    pub fn len(&self) -> u64
        ensures { result ≡ length self.now.bytes }
    {
        self.bytes.len() as u64
    }

    /// Prints a text where there is room.
    pub fn print(&mut self, text: &[u8])
        requires { length text.now ≤ self.old.spare }
        ensures { self.new.bytes ≡ self.old.bytes ++ text.now }
    {
        let _ = self.bytes.extend_from_slice(text);
    }

    /// The bytes.
    pub fn into_bytes(self) -> Vec<u8>
        ensures { result.items ≡ self.bytes }
    {
        self.bytes
    }
}
