//! A room in memory, whose calls fail from one on.

ghost use Rattle.std.specs.Prelude.{◌≡◌, true, [], IfErr};
ghost use Rattle.ill_room.specs.Room.{RoomState, Moves, moved};
ghost use Rattle.ill_text.specs.Fault.{IsFileFault};

use crate::room::{Place, Room};
use ill_night::verdict::{Unfit, Verdict};
use ill_saved::Role;
use ill_text::fault::{STORE_FAILED, ToolFault};
use std::io::Write;
use std::marker::Model;

/// A room in memory, for tests. It passes its first calls, and each later one fails and changes nothing, as after a
/// loss of power.
#[derive(Drop)]
pub struct MemoryRoom {
    places: Vec<Place>,
    asked: Vec<u8>,
    calls: u32,
}

// The value of a room in memory has its places and the messages that ask. It has not the calls that are left.
impl Model for MemoryRoom {
    ghost Value = { RoomState };

    ghost view = { λ r. record { places = r.places.items; asked = r.asked.items; is_correct = true } };
}

impl MemoryRoom {
    /// Returns a room with message files at these places and no messages that ask. Its first `calls` calls do not fail.
    pub fn new(places: Vec<Place>, calls: u32) -> MemoryRoom
        ensures { result ≡ record { places = places.items; asked = []; is_correct = true } }
    {
        let alloc = *places.allocator();
        MemoryRoom {
            places,
            asked: Vec::new(alloc),
            calls,
        }
    }

    /// Returns the places of the message files.
    pub fn places(&self) -> &[Place]
        ensures { result.now ≡ self.now.places }
    {
        &self.places
    }

    /// Takes a call away, and returns true if one was left.
    fn burns(&mut self) -> bool
        ensures { self.new ≡ self.old }
    {
        if self.calls == 0 {
            return false;
        }
        self.calls -= 1;
        true
    }

    /// Moves message file `number` to the place `to`, if it is claimed. If no call is left, it fails.
    #[tactic(auto, using(crate::proofs::MemoryRoom::set_moves, crate::proofs::MemoryRoom::none_moves, crate::proofs::MemoryRoom::fails_to_move))]
    fn move_to(&mut self, number: usize, to: Place) -> Result<(), ToolFault>
        ensures moves { Moves to number self.old result self.new }
        ensures correct { self.new.is_correct ≡ self.old.is_correct }
        ensures faults { IfErr result IsFileFault }
    {
        if !self.burns() {
            return Err(STORE_FAILED);
        }
        if number < self.places.len() {
            let place = self.places[number];
            self.places[number] = place.moved(to);
        }
        Ok(())
    }
}

impl Place {
    /// Returns the place of a message file after it was to be moved to the place `to`. Only a claimed message file
    /// moves.
    pub fn moved(self, to: Place) -> Place
        ensures { result ≡ moved to self }
    {
        match self {
            Place::Claimed => to,
            other => other,
        }
    }
}

// A call that moves a message file or keeps messages takes one of the calls away. If none is left, it fails.
impl Room for MemoryRoom {
    ghost state = { λ room. room };

    #[tactic(auto, using(crate::proofs::MemoryRoom::moves_in_all))]
    fn remove(&mut self, number: usize) -> Result<(), ToolFault> {
        self.move_to(number, Place::Gone)
    }

    #[tactic(auto, using(crate::proofs::MemoryRoom::moves_in_all))]
    fn quarantine(&mut self, number: usize, _unfit: Unfit) -> Result<(), ToolFault> {
        self.move_to(number, Place::Quarantined)
    }

    #[tactic(auto, using(crate::proofs::MemoryRoom::gives_in_all))]
    fn give_back(&mut self, number: usize) -> Result<(), ToolFault> {
        self.move_to(number, Place::Waiting)
    }

    fn keep_asked<E: Write>(&mut self, asked: &[u8], _errors: &mut E) -> Result<(), ToolFault> {
        if !self.burns() {
            return Err(STORE_FAILED);
        }
        self.asked = Vec::from_slice(*self.asked.allocator(), asked)?;
        Ok(())
    }

    fn print_for_person<E: Write>(&self, _role: Role, _verdicts: &[Verdict], _errors: &mut E) {}

    fn clear(&mut self) {}
}
