//! A side has sent messages, each under its number.

ghost use Rattle.std.specs.Prelude.{◌≡◌, List, Option, length, option_map, IfOk};
ghost use Rattle.ill_values.specs.declared.apdu.Apdu.{Apdu};
ghost use Rattle.ill_world.specs.World.{nothing_sent, sent_message, with_sent};

use crate::message::Message;
use ill_values::{Number, OutOfMemory};
use std::alloc::Global;
use std::marker::Model;

/// A message has a number from 1 to 255, and a side sends at most one message under each number.
const MESSAGES: usize = 255;

/// A list has a place for each number, with the message that was sent under it.
#[derive(Debug, Drop)]
pub struct Sent {
    places: Vec<Option<Message>>,
}

/// Contracts see the list as it is, with 255 places. Each message is seen as its APDU.
impl Model for Sent {
    ghost Value = { List (Option Apdu) };

    ghost view = { λ sent. sent.places.items };

    ghost invariant = { λ sent. length sent.places.items ≡ 255 };
}

impl Sent {
    /// Returns a list of 255 empty places.
    pub fn nothing(alloc: Global) -> Result<Sent, OutOfMemory>
        ensures { IfOk result (λ sent. sent ≡ nothing_sent) }
    {
        let mut places = Vec::with_capacity(alloc, MESSAGES)?;
        for _ in 0..MESSAGES {
            places.push(None)?;
        }
        Ok(Sent { places })
    }

    /// Adds `message` as sent under `number`.
    pub fn put(&mut self, number: Number, message: Message)
        ensures { self.new ≡ with_sent self.old number message }
    {
        self.places[usize::from(number.get()) - 1] = Some(message);
    }

    /// Returns the message that was sent under `number`, if there is one.
    pub fn get(&self, number: Number) -> Option<&Message>
        ensures { option_map (λ message. message.now) result ≡ sent_message self.now number }
    {
        self.places.get(usize::from(number.get()) - 1)?.as_ref()
    }
}
