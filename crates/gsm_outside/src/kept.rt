// Files in memory, as a map from names to bytes.
ghost use Rattle.std.specs.Prelude.{◌≡◌, ◌++◌, ◌<◌, length, position, IfOk, IfSome, OnOk, OnErr};
ghost use Rattle.gsm_outside.specs.Held.{Fetched, most_fetched};
ghost use Rattle.gsm_outside.specs.Kept.{is_named};

use std::alloc::{AllocError, Global};
use std::marker::Model;

/// Bytes that contracts see as their list, so that a file is the same value after a refused growth.
#[derive(Drop)]
pub struct Bytes {
    items: Vec<u8>,
}

impl Model for Bytes {
    ghost use Rattle.std.specs.Prelude.{ℕ, List};

    ghost Value = { List ℕ };

    ghost view = { λ bytes. bytes.items.items };
}

impl Bytes {
    pub fn from_slice(alloc: Global, bytes: &[u8]) -> Result<Bytes, AllocError>
        ensures { IfOk result (λ made. made ≡ bytes.now) }
    {
        Ok(Bytes {
            items: Vec::from_slice(alloc, bytes)?,
        })
    }

    pub fn as_slice(&self) -> &[u8]
        ensures { result.now ≡ self.now }
    {
        &self.items
    }

    pub fn extend(&mut self, piece: &[u8]) -> Result<(), AllocError>
        ensures ok { OnOk result (self.new ≡ self.old ++ piece.now) }
        ensures unchanged { OnErr result (self.new ≡ self.old) }
    {
        self.items.extend_from_slice(piece)
    }
}

#[derive(Drop)]
pub struct File {
    pub name: Bytes,
    pub bytes: Bytes,
}

/// Files, each under a name of its own.
#[derive(Drop)]
pub struct Kept {
    alloc: Global,
    files: Vec<File>,
}

impl Model for Kept {
    ghost use Rattle.std.specs.Coded.{coded_list, coded_ℕ};
    ghost use Rattle.std.specs.FinMap as map;
    ghost use Rattle.gsm_outside.specs.Held.{Held};
    ghost use Rattle.gsm_outside.specs.Kept.{held_by};

    ghost Value = { Held };

    ghost coded = { map.code (coded_list coded_ℕ) (coded_list coded_ℕ) };

    ghost view = { λ kept. held_by kept.files.items };
}

impl Kept {
    ghost use Rattle.std.specs.Prelude.{◌≡◌, ◌++◌, OnOk, OnErr};
    ghost use Rattle.std.specs.Option.{option_copied};
    ghost use Rattle.std.specs.FinMap as map;
    ghost use Rattle.gsm_outside.specs.Held.{file_bytes};

    #[tactic(auto, using(crate::proofs::KeptFacts::held_none))]
    pub fn new(alloc: Global) -> Kept
        ensures { result ≡ map.empty }
    {
        Kept {
            alloc,
            files: Vec::new(alloc),
        }
    }

    #[tactic(auto, using(crate::proofs::KeptFacts::get_at, crate::proofs::KeptFacts::get_none))]
    pub fn bytes_of(&self, name: &[u8]) -> Option<&[u8]>
        ensures { option_copied result ≡ map.get self.now name.now }
    {
        let place = place_of(&self.files, name)?;
        Some(self.files[place].bytes.as_slice())
    }

    /// Puts bytes under a name, in the place of those that were there.
    #[tactic(auto, using(crate::proofs::KeptFacts::held_set, crate::proofs::KeptFacts::held_push))]
    pub fn put(&mut self, name: &[u8], bytes: &[u8]) -> Result<(), AllocError>
        ensures ok { OnOk result (self.new ≡ map.insert self.old name.now bytes.now) }
        ensures unchanged { OnErr result (self.new ≡ self.old) }
    {
        let bytes = Bytes::from_slice(self.alloc, bytes)?;
        match place_of(&self.files, name) {
            Some(place) => self.files[place].bytes = bytes,
            None => {
                let name = Bytes::from_slice(self.alloc, name)?;
                self.files.push(File { name, bytes })?;
            }
        }
        Ok(())
    }

    /// Puts a piece behind the bytes of a name. A missing name is made.
    #[tactic(auto, using(crate::proofs::KeptFacts::held_set, crate::proofs::KeptFacts::get_at, crate::proofs::KeptFacts::get_none))]
    pub fn add(&mut self, name: &[u8], piece: &[u8]) -> Result<(), AllocError>
        ensures ok { OnOk result (self.new ≡ map.insert self.old name.now (file_bytes self.old name.now ++ piece.now)) }
        ensures unchanged { OnErr result (self.new ≡ self.old) }
    {
        match place_of(&self.files, name) {
            Some(place) => self.files[place].bytes.extend(piece),
            None => self.put(name, piece),
        }
    }
}

fn place_of(files: &[File], name: &[u8]) -> Option<usize>
    ensures value { result ≡ position (is_named name.now) files.now }
    ensures within { IfSome result (λ place. place < length files.now) }
{
    files.iter().position(|file| is_named(file, name))
}

// By the order of the names, as in the map that contracts see.
#[tactic(auto, unfolding(crate::specs::Kept::is_named))]
fn is_named(file: &File, name: &[u8]) -> bool
    ensures { result ≡ is_named name.now file.now }
{
    name.cmp(file.name.as_slice()).is_eq()
}

/// Copies bytes from a place on into a buffer, as many as fit and are left.
pub fn copy_from(bytes: &[u8], at: u64, buf: &mut [u8]) -> usize
    requires { 0 < length buf.old }
    ensures bytes { Fetched bytes.now at buf.new result }
    ensures count { result ≡ most_fetched bytes.now at buf.new }
{
    if at >= bytes.len() as u64 {
        return 0;
    }
    let rest = &bytes[at as usize..];
    let count = rest.len().min(buf.len());
    buf[..count].copy_from_slice(&rest[..count]);
    count
}
