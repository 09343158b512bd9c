// Names and their bytes, in a list.
ghost use Rattle.std.specs.Prelude.{◌≡◌, ◌<◌, [], None, IsSome, OnOk, OnErr, MatchOption, length};
ghost use Rattle.std.specs.Option.{option_map};
ghost use Rattle.vault_ports.specs.Places.{file_at, files_of, IsFirst, IsFiled};

use std::alloc::Global;
use vault_types::Memory;

// Where a name stands twice, the first counts.
#[derive(Drop)]
pub struct Files {
    pub list: Vec<(String, Vec<u8>)>,
}

impl Files {
    // Where the name stands first.
    fn index_of(&self, name: &str) -> Option<usize>
        ensures { MatchOption result (file_at (files_of self.now.list.items) name.now ≡ None)
            (λ i. (i < length self.now.list.items)
            × IsFirst (files_of self.now.list.items) name.now i) }
    {
        for (i, file) in self.list.iter().enumerate() {
            if file.0.as_str() == name {
                return Some(i);
            }
        }
        None
    }

    // What is under a name.
    pub fn bytes(&self, name: &str) -> Option<&[u8]>
        ensures { option_map (λ b. b.now) result ≡ file_at (files_of self.now.list.items) name.now }
    {
        match self.index_of(name) {
            Some(i) => Some(self.list[i].1.as_slice()),
            None => None,
        }
    }

    // Gives a name that is there these bytes.
    pub fn give(&mut self, name: &str, bytes: Vec<u8>)
        requires { IsSome (file_at (files_of self.old.list.items) name.now) }
        ensures { IsFiled (files_of self.old.list.items) (files_of self.new.list.items) name.now bytes.items }
    {
        match self.index_of(name) {
            Some(i) => self.list[i].1 = bytes,
            None => unreachable!(),
        }
    }

    // Gives a name no bytes.
    pub fn empty(&mut self, alloc: Global, name: &str) -> Result<(), Memory>
        ensures ok { OnOk result
            (IsFiled (files_of self.old.list.items) (files_of self.new.list.items) name.now []) }
        ensures err { OnErr result (files_of self.new.list.items ≡ files_of self.old.list.items) }
    {
        match self.index_of(name) {
            Some(i) => self.list[i].1 = Vec::new(alloc),
            None => {
                let copy = name.to_string(alloc)?;
                self.list.push((copy, Vec::new(alloc)))?;
            }
        }
        Ok(())
    }
}
