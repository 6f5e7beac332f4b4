// The bytes of a block while they are written.
ghost use Rattle.std.specs.Prelude.{◌≡◌, ◌+◌, ◌-◌, ◌≤◌, [], ◌++◌, length, replicate};

use std::marker::Model;

/// The front of a block, which is zero after it.
#[derive(Drop)]
pub struct Page {
    bytes: [u8; 512],
    written: usize,
}

impl Model for Page {
    ghost use Rattle.std.specs.Prelude.{ℕ, ◌≡◌, ◌≤◌, ◌-◌, List, take, drop, replicate};

    ghost Value = { List ℕ };

    ghost view = { λ p. take p.written p.bytes };

    ghost invariant = { λ p. record {
      within : p.written ≤ 512;
      zeros : drop p.written p.bytes ≡ replicate (512 - p.written) 0;
    } };
}

impl Page {
    pub fn new() -> Page
        ensures { result ≡ [] }
    {
        Page {
            bytes: [0; 512],
            written: 0,
        }
    }

    pub fn push(&mut self, part: &[u8])
        requires { length self.old + length part.now ≤ 512 }
        ensures { self.new ≡ self.old ++ part.now }
    {
        let end = self.written + part.len();
        self.bytes[self.written..end].copy_from_slice(part);
        self.written = end;
    }

    pub fn into_bytes(self) -> [u8; 512]
        ensures { result ≡ self ++ replicate (512 - length self) 0 }
    {
        self.bytes
    }
}
