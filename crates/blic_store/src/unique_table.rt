// The unique table: which numbers were entered with a hash.
ghost use Rattle.std.specs.Prelude.{◌≡◌, ◌+◌, ◌-◌, ◌^◌, ◌<◌, ◌≤◌, ℕ, List, [], ◌∷◌, ◌++◌, length, map, slice_index_or, IfOk, IfSome, IfNone, OnOk, OnErr};
ghost use Rattle.blic_store.specs.UniqueTable.{HasChains, HasNone, IsLast, IsSize, bucket, bucket_at, hash_at};

use blic_basic::NoMem;
use std::alloc::Global;
use std::marker::Model;
use std::vec::Vec;

/// The number of buckets of a table without numbers.
const SMALL: usize = 16;

/// A number's hash, and the next older number of its chain, plus one.
#[derive(Clone, Copy)]
struct Link {
    hash: u32,
    older: u32,
}

/// Numbers from 0 on, each entered with a hash, and found by it. What a number stands for is its
/// owner's: of the numbers with one hash, the owner looks for the right one.
#[derive(Drop)]
pub struct UniqueTable {
    heads: Vec<u32>,
    links: Vec<Link>,
}

impl Model for UniqueTable {
    ghost use Rattle.std.specs.Prelude.{List, map, ℕ};
    ghost use Rattle.blic_store.specs.UniqueTable.{IsTable};

    ghost Value = { List ℕ };

    ghost view = { λ t. map (λ l. l.hash) t.links.items };

    ghost invariant = { λ t. IsTable t.heads.items t.links.items };
}

impl UniqueTable {
    /// A table without numbers, with room for some.
    pub fn new(alloc: Global) -> Result<UniqueTable, NoMem>
        ensures { IfOk result (λ table. table ≡ []) }
    {
        Ok(UniqueTable {
            heads: vec![in alloc; 0; SMALL]?,
            links: Vec::new(alloc),
        })
    }

    /// The last number that was entered with the hash.
    pub fn newest(&self, hash: u32) -> Option<u32>
        ensures some { IfSome result (IsLast self.now (length self.now) hash) }
        ensures none { IfNone result (HasNone self.now (length self.now) hash) }
    {
        let home = bucket_of(hash, self.heads.len());
        last(&self.heads, &self.links, self.heads[home], hash)
    }

    /// The last number before `k` that was entered with `k`'s hash.
    pub fn older(&self, k: u32) -> Option<u32>
        requires { k < length self.now }
        ensures some { IfSome result (IsLast self.now k (hash_at self.now k)) }
        ensures none { IfNone result (HasNone self.now k (hash_at self.now k)) }
    {
        let link = self.links[k as usize];
        last(&self.heads, &self.links, link.older, link.hash)
    }

    /// Takes out all numbers. It takes no longer for a table that had many.
    pub fn clear(&mut self)
        ensures { self.new ≡ [] }
    {
        self.links.clear();
        self.heads.truncate(SMALL);
        clear(&mut self.heads);
    }

    /// Enters the next number with the hash.
    pub fn enter(&mut self, hash: u32) -> Result<(), NoMem>
        requires { length self.old + 1 < 2 ^ 32 }
        ensures ok { OnOk result (self.new ≡ self.old ++ hash ∷ []) }
        ensures err { OnErr result (self.new ≡ self.old) }
    {
        let n = self.links.len();
        self.links.push(Link { hash, older: 0 })?;
        chain(&mut self.heads, &mut self.links, n);
        if self.links.len() > self.heads.len() {
            widen(&mut self.heads, &mut self.links);
        }
        Ok(())
    }
}

// The bucket of a hash.
fn bucket_of(hash: u32, size: usize) -> usize
    requires { IsSize size }
    ensures value { result ≡ bucket size hash }
    ensures in_range { result < size }
{
    hash as usize & (size - 1)
}

// The last number that was entered with the hash, of the chain that begins with `from`.
fn last(heads: &[u32], links: &[Link], from: u32, hash: u32) -> Option<u32>
    requires chains { HasChains heads.now links.now (length links.now) }
    requires in_range { from ≤ length links.now }
    requires in_bucket { 0 < from → bucket_at (length heads.now) links.now (from - 1) ≡ bucket (length heads.now) hash }
    ensures some { IfSome result (IsLast (map (λ l. l.hash) links.now) from hash) }
    ensures none { IfNone result (HasNone (map (λ l. l.hash) links.now) from hash) }
{
    let mut at = from;
    while at != 0 {
        let link = links[at as usize - 1];
        if link.hash == hash {
            return Some(at - 1);
        }
        at = link.older;
    }
    None
}

// Puts number n into its chain, if those before it are in theirs.
fn chain(heads: &mut [u32], links: &mut [Link], n: usize)
    requires size { IsSize (length heads.old) }
    requires chains { HasChains heads.old links.old n }
    requires in_range { n < length links.old }
    requires few { n + 1 < 2 ^ 32 }
    ensures chains { HasChains heads.new links.new (n + 1) }
    ensures hashes { map (λ l. l.hash) links.new ≡ map (λ l. l.hash) links.old }
{
    let hash = links[n].hash;
    let home = bucket_of(hash, heads.len());
    links[n] = Link {
        hash,
        older: heads[home],
    };
    heads[home] = n as u32 + 1;
}

// Twice as many buckets, if there is memory for them.
fn widen(heads: &mut Vec<u32>, links: &mut [Link])
    requires size { IsSize (length heads.old.items) }
    requires chains { HasChains heads.old.items links.old (length links.old) }
    requires few { length links.old < 2 ^ 32 }
    ensures size { IsSize (length heads.new.items) }
    ensures chains { HasChains heads.new.items links.new (length links.old) }
    ensures hashes { map (λ l. l.hash) links.new ≡ map (λ l. l.hash) links.old }
{
    let old = heads.len();
    if old > 1 << 31 || heads.resize(2 * old, 0).is_err() {
        return;
    }
    clear(heads);
    chain_all(heads, links);
}

// Puts all numbers into empty chains.
fn chain_all(heads: &mut [u32], links: &mut [Link])
    requires empty { (b : ℕ) → slice_index_or heads.old b 0 ≡ 0 }
    requires size { IsSize (length heads.old) }
    requires few { length links.old < 2 ^ 32 }
    ensures chains { HasChains heads.new links.new (length links.old) }
    ensures hashes { map (λ l. l.hash) links.new ≡ map (λ l. l.hash) links.old }
{
    for n in 0..links.len() {
        chain(heads, links, n);
    }
}

fn clear(heads: &mut [u32])
    ensures { (b : ℕ) → slice_index_or heads.new b 0 ≡ 0 }
{
    for head in heads.iter_mut() {
        *head = 0;
    }
}
