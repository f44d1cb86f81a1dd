// A file in memory.
use std::marker::Model;

/// A file in memory. Contracts see a `NamedBytes`.
#[derive(Drop)]
pub struct MemFile {
    pub name: String,
    pub bytes: Vec<u8>,
}

impl Model for MemFile {
    ghost use Rattle.std.specs.Prelude.{string_bytes};
    ghost use Rattle.blic_basic.specs.Named.{NamedBytes};

    ghost Value = { NamedBytes };

    ghost view = { λ f. record { name = string_bytes f.name; bytes = f.bytes.items } };
}
