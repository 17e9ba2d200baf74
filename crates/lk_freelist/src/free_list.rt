//! The free list of a room.

ghost use Rattle.std.specs.Prelude.{◌≡◌, ◌+◌, ◌^◌, ◌<◌, ◌≤◌, ◌&&◌, ◌||◌, ℕ, not, IfOk, IfSome, IsOk, MatchOption, OnErr, OnOk};
ghost use Rattle.lk_model.specs.FirstFit.{first_fit};
ghost use Rattle.lk_model.specs.Holes.{hole_between, without};
ghost use Rattle.lk_freelist.specs.FreeBytes.{AreHoles, NoneFree, is_free, is_in};

use crate::placing::{find_place, take_out};
use crate::taking_back::put_back;
use lk_model::layouts::{Hole, HoleList};
use lk_report::NoMemory;
use std::alloc::Global;
use std::marker::Model;

/// The holes of a room. Places and lengths are in bytes from the room's start. Contracts see the length of
/// the shortest hole that may be left, the holes, and for how many calls there is room.
#[derive(Drop)]
pub struct FreeList {
    least: u64,
    holes: Vec<Hole>,
}

impl Model for FreeList {
    ghost use Rattle.std.specs.Prelude.{◌-◌};
    ghost use Rattle.std.specs.Vec.{vec_capacity, vec_len};
    ghost use Rattle.lk_freelist.specs.FreeBytes.{AreHoles};
    ghost use Rattle.lk_freelist.specs.FreeLists.{Free};

    ghost Value = { Free };

    ghost view = { λ f. record { least = f.least; holes = f.holes.items; spare = vec_capacity f.holes - vec_len f.holes } };

    ghost invariant = { λ f. AreHoles f.holes.items };
}

impl FreeList {
    /// A room of `length` bytes that are all free. `least` is the length of the shortest hole that may be
    /// left.
    pub fn new(alloc: Global, least: u64, length: u64) -> Result<Self, NoMemory>
        ensures { IfOk result (λ f. (f.least ≡ least) × (f.holes ≡ hole_between 0 length)) }
    {
        let mut holes = Vec::new(alloc);
        if length > 0 {
            let Ok(()) = holes.push(Hole { start: 0, length }) else {
                return Err(NoMemory);
            };
        }
        Ok(FreeList { least, holes })
    }

    /// These holes.
    pub fn of_holes(alloc: Global, least: u64, holes: &HoleList) -> Result<Self, NoMemory>
        requires { AreHoles holes.now }
        ensures { IfOk result (λ f. (f.least ≡ least) × (f.holes ≡ holes.now)) }
    {
        match Vec::from_slice(alloc, holes.as_slice()) {
            Ok(holes) => Ok(FreeList { least, holes }),
            Err(_) => Err(NoMemory),
        }
    }

    /// Makes room for `more` calls that place or take back.
    ///
    /// # Errors
    /// Out of memory, which there is not where there is room for so many; nothing changes then.
    pub fn reserve(&mut self, more: usize) -> Result<(), NoMemory>
        ensures room { OnOk result (more ≤ self.new.spare) }
        ensures more { self.old.spare ≤ self.new.spare }
        ensures least { self.new.least ≡ self.old.least }
        ensures holes { self.new.holes ≡ self.old.holes }
        ensures unchanged { OnErr result (self.new ≡ self.old) }
        ensures enough { more ≤ self.old.spare → IsOk result }
    {
        match self.holes.reserve(more) {
            Ok(()) => Ok(()),
            Err(_) => Err(NoMemory),
        }
    }

    /// The place of a piece of `size` bytes by first fit, a multiple of `align`; its bytes are not free
    /// afterwards. `None` where no hole takes it; nothing changes then.
    pub fn place(&mut self, size: u64, align: u64) -> Option<u64>
        requires some { 0 < size }
        requires aligned { 0 < align }
        requires room { 0 < self.old.spare }
        ensures first { result ≡ first_fit self.old.holes self.old.least size align }
        ensures left { MatchOption result (self.new ≡ self.old) (λ at. self.new.holes ≡ without self.old.holes (record { start = at; length = size })) }
        ensures free { IfSome result (λ at. (byte : ℕ) → is_free self.new.holes byte ≡ (is_free self.old.holes byte && not (is_in at size byte))) }
        ensures least { self.new.least ≡ self.old.least }
        ensures spare { self.old.spare ≤ self.new.spare + 1 }
    {
        let found = find_place(self.holes.as_slice(), self.least, size, align)?;
        take_out(&mut self.holes, found.index, found.hole, found.at, size);
        Some(found.at)
    }

    /// Makes `size` bytes from `start` on free again, and joins holes that then touch.
    pub fn take_back(&mut self, start: u64, size: u64)
        requires within { start + size < 2 ^ 64 }
        requires taken { NoneFree self.old.holes start size }
        requires room { 0 < self.old.spare }
        ensures free { (byte : ℕ) → is_free self.new.holes byte ≡ (is_in start size byte || is_free self.old.holes byte) }
        ensures nothing { size ≡ 0 → self.new ≡ self.old }
        ensures least { self.new.least ≡ self.old.least }
        ensures spare { self.old.spare ≤ self.new.spare + 1 }
    {
        if size > 0 {
            put_back(&mut self.holes, start, size);
        }
    }

    /// The holes by rising start.
    pub fn holes(&self) -> &[Hole]
        ensures same { result.now ≡ self.now.holes }
        ensures holes { AreHoles self.now.holes }
    {
        self.holes.as_slice()
    }

    /// The holes by rising start, given away without taking memory.
    pub fn into_holes(self) -> HoleList
        ensures same { result ≡ self.holes }
        ensures holes { AreHoles self.holes }
    {
        let FreeList { holes, .. } = self;
        HoleList::from_vec(holes)
    }
}
