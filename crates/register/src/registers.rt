// The ordered register.
ghost use Rattle.std.specs.Prelude.{◌≡◌, ◌<◌, ◌≤◌, true, not, ◌&&◌, length, take, if◌then◌else◌, Some, None, IfSome, nat_lt, slice_index_or};
ghost use Rattle.std.specs.Bool.{then_some};
ghost use Rattle.register.specs.Orders.{climbs};
ghost use Rattle.register.specs.Places.{registrable, place_of, Placed};

use crate::keys::{Key, is_rising};
use std::marker::Model;

// Up to N keys, seen as their list, which rises. A table and a count, since an `ArrayVec` would ask a default of a key.
#[derive(Drop)]
pub struct Register<K: Key, const N: usize> {
    keys: [K; N],
    count: usize,
}

impl<K: Key, const N: usize> Model for Register<K, N> {
    ghost use Rattle.std.specs.Prelude.{◌≡◌, ◌≤◌, List, true, length, take};
    ghost use Rattle.register.specs.Orders.{climbs};

    ghost Value = { List K };

    ghost view = { λ r. take r.count r.keys };

    ghost invariant = { λ r. (length r.keys ≡ N) × (r.count ≤ N) × (climbs K.before (take r.count r.keys) ≡ true) };
}

impl<K: Key, const N: usize> Register<K, N> {
    // A register of 1 to N keys; `None` exactly if there are none, or more than N, or they do not rise.
    pub fn new(keys: &[K]) -> Option<Register<K, N>>
        ensures { result ≡ then_some (registrable K.before N keys.now) keys.now }
    {
        if !is_registrable::<K, N>(keys) {
            return None;
        }
        Some(Register {
            keys: table_of(keys),
            count: keys.len(),
        })
    }

    // Its keys.
    pub fn keys(&self) -> &[K]
        ensures keys { result.now ≡ self.now }
        ensures rising { climbs K.before result.now ≡ true }
        ensures few { length result.now ≤ N }
    {
        let all = &self.keys[..];
        &all[..self.count]
    }

    // The place of a key, or `None` where the register has no such key.
    pub fn place(&self, key: &K) -> Option<usize>
        ensures place { result ≡ place_of K.before self.now key.now }
        ensures meaning { Placed self.now key.now result }
        ensures within { IfSome result (λ i. i < N) }
    {
        let keys = self.keys();
        let at = keys.partition_point(|k| k.precedes(key));
        found_at(keys, key, at)
    }
}

// A place of a list; `None` if it is past the end, or the key there comes after a key.
fn found_at<K: Key>(keys: &[K], key: &K, at: usize) -> Option<usize>
    ensures { result ≡ (if nat_lt at (length keys.now) && not (K.before key.now (slice_index_or keys.now at key.now)) then Some at else None) }
{
    let found = keys.get(at)?;
    if key.precedes(found) {
        return None;
    }
    Some(at)
}

// Whether a register of up to N keys can be made from a list.
fn is_registrable<K: Key, const N: usize>(keys: &[K]) -> bool
    ensures { result ≡ registrable K.before N keys.now }
{
    !keys.is_empty() && keys.len() <= N && is_rising(keys)
}

// A table that begins with the keys of a list.
fn table_of<K: Key, const N: usize>(keys: &[K]) -> [K; N]
    requires some { 0 < length keys.now }
    requires few { length keys.now ≤ N }
    ensures long { length result ≡ N }
    ensures keys { take (length keys.now) result ≡ keys.now }
{
    let mut table = [keys[0]; N];
    table[..keys.len()].copy_from_slice(keys);
    table
}
