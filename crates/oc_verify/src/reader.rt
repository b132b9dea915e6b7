//! Fields of a file, from the left.
ghost use Rattle.std.specs.Prelude.{◌≡◌, false, IfOk};
ghost use Rattle.oc_verify.specs.Reading.{
  any_at,
  is_named,
  magic_at,
  name_at,
  number_at,
  operand_at,
  target_at,
  unused_at,
  word_at,
};
ghost use Rattle.oc_verify.specs.Reads as reads;

use crate::fault::ReadFault;
use crate::names::{Seen, is_name};
use oc_tree::said::Target;
use std::marker::Model;

/// The bytes of a file that are still to be read.
#[derive(Drop)]
pub struct Reader<'a> {
    rest: &'a [u8],
}

impl<'a> Model for Reader<'a> {
    ghost use Rattle.std.specs.Prelude.{ℕ, List};

    ghost Value = { List ℕ };

    ghost view = { λ a. a.rest.now };
}

impl<'a> Reader<'a> {
    /// All of these bytes.
    pub fn new(bytes: &'a [u8]) -> Reader<'a>
        ensures { result ≡ bytes.now }
    {
        Reader { rest: bytes }
    }

    /// A number from `low` to `high`.
    #[tactic(auto, unfolding(crate::specs::Reading::number_at))]
    pub fn number(&mut self, low: u32, high: u32) -> Result<u32, ReadFault>
        ensures { reads.Reads (λ n. n) result self.new (number_at low high self.old) }
    {
        let left = self.rest.len();
        let Some((field, rest)) = self.rest.split_first_chunk::<4>() else {
            return Err(ReadFault::Bad { left });
        };
        let number = u32::from_le_bytes(*field);
        if low <= number && number <= high {
            self.rest = rest;
            Ok(number)
        } else {
            Err(ReadFault::Bad { left })
        }
    }

    /// Any number.
    pub fn any(&mut self) -> Result<u32, ReadFault>
        ensures { reads.Reads (λ n. n) result self.new (any_at self.old) }
    {
        self.number(0, u32::MAX)
    }

    /// The bytes that each file begins with.
    pub fn magic(&mut self) -> Result<(), ReadFault>
        ensures { reads.ReadsBare result self.new (magic_at self.old) }
    {
        let left = self.rest.len();
        match self.rest.strip_prefix(b"OCELOT1\n") {
            Some(rest) => {
                self.rest = rest;
                Ok(())
            }
            None => Err(ReadFault::Bad { left }),
        }
    }

    /// Nothing may be left.
    pub fn end(&self) -> Result<(), ReadFault>
        ensures { reads.Ends result self.now }
    {
        let left = self.rest.len();
        if left == 0 {
            Ok(())
        } else {
            Err(ReadFault::Bad { left })
        }
    }

    /// A name that is none of those that were seen.
    #[tactic(auto, unfolding(crate::specs::Reading::name_at))]
    pub fn name(&mut self, seen: &Seen) -> Result<&'a [u8], ReadFault>
        ensures read { reads.Reads (λ n. n.now) result self.new (name_at seen.now self.old) }
        ensures fresh { IfOk result (λ n. is_named seen.now n.now ≡ false) }
    {
        let left = self.rest.len();
        let length = self.any()?;
        let Some((name, rest)) = self.rest.split_at_checked(length as usize) else {
            return Err(ReadFault::Bad { left });
        };
        if is_name(name) && !seen.has(name) {
            self.rest = rest;
            Ok(name)
        } else {
            Err(ReadFault::Bad { left })
        }
    }

    /// A word in two's complement.
    pub fn word(&mut self) -> Result<i32, ReadFault>
        ensures { reads.Reads (λ z. z) result self.new (word_at self.old) }
    {
        let number = self.any()?;
        Ok(number.cast_signed())
    }

    /// Two numbers that aren't used.
    #[tactic(auto, unfolding(crate::specs::Reading::unused_at))]
    pub fn skip_unused(&mut self) -> Result<(), ReadFault>
        ensures { reads.ReadsBare result self.new (unused_at self.old) }
    {
        self.number(0, 0)?;
        self.number(0, 0)?;
        Ok(())
    }

    /// An operand up to `high`, and a number that isn't used.
    #[tactic(auto, unfolding(crate::specs::Reading::operand_at))]
    pub fn operand(&mut self, high: u32) -> Result<u32, ReadFault>
        ensures { reads.Reads (λ n. n) result self.new (operand_at high self.old) }
    {
        let operand = self.number(0, high)?;
        self.number(0, 0)?;
        Ok(operand)
    }

    /// A target of a region.
    pub fn read_target(&mut self) -> Result<Target, ReadFault>
        ensures { reads.Reads (λ t. t) result self.new (target_at self.old) }
    {
        let tag = self.number(0, 1)?;
        let place = self.any()?;
        let len = self.any()?;
        if tag == 0 {
            Ok(Target::Nv { base: place, len })
        } else {
            Ok(Target::Param { slot: place, len })
        }
    }
}
