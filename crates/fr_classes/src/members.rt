//! The rows of each class, found in time of their number.

ghost use Rattle.std.specs.Prelude.{◌≡◌, ◌<◌, ◌≤◌, IfOk, length, slice_index, slice_set};
ghost use Rattle.std.specs.List.{All};
ghost use Rattle.fr_classes.specs.Members.{IsMembers, IsLinked};

use fr_alphabet::NoMemory;
use std::alloc::Global;

/// The rows of each class as a ring. Rows come to a class only in the round in which it is made, so that its eldest row is
/// still in it then.
#[derive(Drop)]
pub struct Members {
    // The class of each row.
    of: Vec<u16>,
    // How many rows each class has.
    size: Vec<u32>,
    // The neighbours of each row in the ring of its class.
    next: Vec<u16>,
    before: Vec<u16>,
    // For each class with a row the one that came first.
    eldest: Vec<u16>,
}

impl Members {
    /// So many rows, 1 to 65,536, in class 0. The only error is want of memory.
    pub fn new(alloc: Global, count: usize) -> Result<Members, NoMemory>
        requires least { 1 ≤ count }
        requires most { count ≤ 65536 }
        ensures members { IfOk result (λ m. IsMembers m) }
        ensures count { IfOk result (λ m. length m.of.items ≡ count) }
    {
        let mut size = vec![in alloc; 0u32; count]?;
        size[0] = count as u32;
        let mut next = Vec::with_capacity(alloc, count)?;
        let mut before = Vec::with_capacity(alloc, count)?;
        for row in 0..count {
            next.push(((row + 1) % count) as u16)?;
            before.push(((row + count - 1) % count) as u16)?;
        }
        Ok(Members {
            of: vec![in alloc; 0u16; count]?,
            size,
            next,
            before,
            eldest: vec![in alloc; 0u16; count]?,
        })
    }

    /// How many rows a class has.
    pub fn size(&self, class: u16) -> u32
        requires members { IsMembers self.now }
        requires class { class < length self.now.of.items }
        ensures { result ≡ slice_index self.now.size.items class }
    {
        self.size[class as usize]
    }

    /// The row after this one in the ring of its class.
    pub fn next(&self, row: u16) -> u16
        requires members { IsMembers self.now }
        requires row { row < length self.now.of.items }
        ensures value { result ≡ slice_index self.now.next.items row }
        ensures row { result < length self.now.of.items }
    {
        self.next[row as usize]
    }

    // Takes a row out of its ring.
    fn unlink(&mut self, row: u16)
        requires members { IsMembers self.old }
        requires row { row < length self.old.of.items }
        ensures { IsLinked self.old self.new }
    {
        let before = self.before[row as usize];
        let next = self.next[row as usize];
        self.next[before as usize] = next;
        self.before[next as usize] = before;
    }

    // Puts a row into the ring of a class.
    fn link(&mut self, row: u16, class: u16)
        requires members { IsMembers self.old }
        requires row { row < length self.old.of.items }
        requires class { class < length self.old.of.items }
        ensures { IsLinked self.old self.new }
    {
        if self.size[class as usize] == 0 {
            self.next[row as usize] = row;
            self.before[row as usize] = row;
            self.eldest[class as usize] = row;
            return;
        }
        let before = self.eldest[class as usize];
        let next = self.next[before as usize];
        self.next[before as usize] = row;
        self.before[row as usize] = before;
        self.next[row as usize] = next;
        self.before[next as usize] = row;
    }

    // Moves a row to a class, if it has another one.
    fn move_to(&mut self, row: u16, class: u16)
        requires members { IsMembers self.old }
        requires row { row < length self.old.of.items }
        requires class { class < length self.old.of.items }
        ensures members { IsMembers self.new }
        ensures of { self.new.of.items ≡ slice_set self.old.of.items row class }
    {
        if self.of[row as usize] == class {
            return;
        }
        self.unlink(row);
        self.link(row, class);
        let old = self.of[row as usize];
        self.of[row as usize] = class;
        self.size[old as usize] -= 1;
        self.size[class as usize] += 1;
    }

    /// Moves these rows to the classes that they have now.
    pub fn follow(&mut self, of: &[u16], moved: &[u16])
        requires members { IsMembers self.old }
        requires of { All (λ c. c < length self.old.of.items) of.now }
        requires count { length of.now ≡ length self.old.of.items }
        requires moved { All (λ s. s < length self.old.of.items) moved.now }
        ensures members { IsMembers self.new }
        ensures count { length self.new.of.items ≡ length self.old.of.items }
        ensures moved { All (λ s. slice_index self.new.of.items s ≡ slice_index of.now s) moved.now }
    {
        for row in moved {
            self.move_to(*row, of[*row as usize]);
        }
    }
}
