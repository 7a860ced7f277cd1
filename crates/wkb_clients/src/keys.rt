//! Keys of geometries, and a store that holds each value once.

ghost use Rattle.std.specs.Prelude.{◌≡◌, ◌⊎◌, [], IfOk, IfErr};
ghost use Rattle.wkb.specs.Prelude.{IsMemory};
ghost use Rattle.wkb.specs.Reads.{IsRefusal};
ghost use Rattle.wkb_clients.specs.Keys.{IsKey, HasOneKey, Inserts};

use std::alloc::Global;
use std::marker::Model;
use wkb::Endianness;
use wkb::canon::canonical;
use wkb::error::WkbResult;
use wkb::laws::are_bytes;
use wkb::writer::{Form, WriteOptions};

/// The key of the geometry at the start of the bytes: equal values have equal keys, whatever their byte orders, codes
/// and SRIDs.
///
/// Rejected as `read_wkb` rejects the bytes.
#[tactic(auto, using(crate::proofs::KeysFound::is_key))]
pub fn key(alloc: Global, bytes: &[u8]) -> WkbResult<Vec<u8>>
    ensures ok { IfOk result (λ key. IsKey bytes.now key.items) }
    ensures err { IfErr result (λ e. IsMemory e ⊎ IsRefusal bytes.now e) }
{
    let options = WriteOptions {
        endianness: Endianness::LittleEndian,
        form: Form::Iso,
    };
    canonical(alloc, bytes, &options)
}

/// Two inputs have one key exactly if their values are equal.
pub fn one_key()
    ensures { HasOneKey }
{}

/// Values of geometries in the order in which they came, each once. It holds their keys, and looks at each of them.
#[derive(Drop)]
pub struct Store {
    keys: Vec<Vec<u8>>,
}

impl Model for Store {
    ghost use Rattle.std.specs.Prelude.{◌≡◌, List, map};
    ghost use Rattle.std.specs.List.{All};
    ghost use Rattle.std.specs.Coded.{coded_list};
    ghost use Rattle.wkb.specs.Reads.{value_code};
    ghost use Rattle.wkb.specs.Values.{Value as Geometry};
    ghost use Rattle.wkb_clients.specs.Keys.{key_of, value_in};

    ghost Value = { List Geometry };

    ghost coded = { coded_list value_code };

    ghost view = { λ s. map (λ k. value_in k.items) s.keys.items };

    ghost invariant = { λ s. All (λ k. k.items ≡ key_of (value_in k.items)) s.keys.items };
}

impl Store {
    /// A store of no values.
    pub fn new(alloc: Global) -> Store
        ensures { result ≡ [] }
    {
        Store {
            keys: Vec::new(alloc),
        }
    }

    /// Stores the value of the geometry at the start of the bytes, and returns whether it was there before.
    ///
    /// Rejected as `read_wkb` rejects the bytes; then nothing changes.
    pub fn insert(&mut self, bytes: &[u8]) -> WkbResult<bool>
        ensures ok { IfOk result (λ was. Inserts self.old self.new bytes.now was) }
        ensures err { IfErr result (λ e. IsMemory e ⊎ IsRefusal bytes.now e) }
        ensures kept { IfErr result (λ e. self.new ≡ self.old) }
    {
        are_bytes(bytes);
        let key = match key(*self.keys.allocator(), bytes) {
            Ok(key) => key,
            Err(e) => return Err(e),
        };
        if self.keys.contains(&key) {
            return Ok(true);
        }
        self.keys.push(key)?;
        Ok(false)
    }
}
