// The day as a call is lent it: bytes, which contracts see as the InputData that they stand for.
#![tactic(auto, unfolding(crate::specs::Bytes::day_of, crate::specs::Bytes::list_in))]

ghost use Rattle.std.specs.Prelude.{◌≡◌, ◌<◌, ◌*◌, get_or};
ghost use Rattle.input_data.specs.Day.{min_at, max_at, optional_at};
ghost use Rattle.input_data.specs.Read.{day_read};

use crate::ConstraintNumbers;
use crate::bytes::{flag, word, words};
use crate::constraints::Constraints;
use refusal::Refusal;
use std::marker::Model;

#[derive(Drop)]
pub struct Day<'a> {
    bytes: &'a [u8],
}

impl<'a> Model for Day<'a> {
    ghost use Rattle.input_data.specs.Bytes.{IsDay, day_of};
    ghost use Rattle.input_data.specs.declared.InputData.{InputData};

    ghost Value = { InputData };

    ghost view = { λ d. day_of d.bytes.now };

    ghost invariant = { λ d. IsDay d.bytes.now };
}

impl<'a> Day<'a> {
    // 2 where the bytes have not a day's length: nothing of it can be read.
    pub fn read(bytes: &'a [u8]) -> Result<Day<'a>, Refusal>
        ensures { result ≡ day_read bytes.now }
    {
        if bytes.len() != 2044 {
            return Err(Refusal::Lengths);
        }
        Ok(Day { bytes })
    }

    pub fn choosers(&self) -> usize
        ensures { result ≡ self.now.choosers }
    {
        word(self.bytes, 0) as usize
    }

    pub fn choices(&self) -> usize
        ensures { result ≡ self.now.choices }
    {
        word(self.bytes, 4) as usize
    }

    pub fn slots(&self) -> usize
        ensures { result ≡ self.now.slots }
    {
        word(self.bytes, 8) as usize
    }

    // How many seats it has: each chooser has one in each slot.
    #[tactic(auto, using(crate::specs::BytesLaws::product_most))]
    pub fn seats(&self) -> usize
        ensures { result ≡ self.now.choosers * self.now.slots }
    {
        word(self.bytes, 0) as usize * word(self.bytes, 8) as usize
    }

    // How many preferences it has: each chooser has one for each choice.
    #[tactic(auto, using(crate::specs::BytesLaws::product_most))]
    pub fn preferences(&self) -> usize
        ensures { result ≡ self.now.choosers * self.now.choices }
    {
        word(self.bytes, 0) as usize * word(self.bytes, 4) as usize
    }

    pub fn max_preference(&self) -> u32
        ensures { result ≡ self.now.max_preference }
    {
        word(self.bytes, 12)
    }

    pub fn groups(&self) -> usize
        ensures { result ≡ self.now.groups }
    {
        word(self.bytes, 24) as usize
    }

    #[tactic(auto, using(crate::specs::BytesLaws::min_of))]
    pub fn min(&self, choice: usize) -> u32
        requires { choice < 32 }
        ensures { result ≡ min_at self.now choice }
    {
        word(self.bytes, 28 + 4 * choice)
    }

    #[tactic(auto, using(crate::specs::BytesLaws::max_of))]
    pub fn max(&self, choice: usize) -> u32
        requires { choice < 32 }
        ensures { result ≡ max_at self.now choice }
    {
        word(self.bytes, 156 + 4 * choice)
    }

    #[tactic(auto, using(crate::specs::BytesLaws::optional_of))]
    pub fn optional(&self, choice: usize) -> bool
        requires { choice < 32 }
        ensures { result ≡ optional_at self.now choice }
    {
        flag(self.bytes, 284 + choice)
    }

    // The number of members of a dependent group.
    #[tactic(auto, using(crate::specs::BytesLaws::length_of))]
    pub fn group_length(&self, group: usize) -> u32
        requires { group < 16 }
        ensures { (result ≡ get_or self.now.lengths group 0) × (result < 4294967296) }
    {
        word(self.bytes, 316 + 4 * group)
    }

    // A member of a dependent group; all groups' members stand one after the other.
    #[tactic(auto, using(crate::specs::BytesLaws::member_of_lem))]
    pub fn member(&self, i: usize) -> u32
        requires { i < 32 }
        ensures { result ≡ get_or self.now.members i 0 }
    {
        word(self.bytes, 380 + 4 * i)
    }

    pub fn mins(&self) -> [u32; 32]
        ensures { result ≡ self.now.mins }
    {
        words(self.bytes, 28)
    }

    pub fn maxs(&self) -> [u32; 32]
        ensures { result ≡ self.now.maxs }
    {
        words(self.bytes, 156)
    }

    pub fn scheduling(&self) -> Constraints<'a>
        ensures { result ≡ self.now.scheduling }
    {
        Constraints::lent(self.bytes, word(self.bytes, 16) as usize, 508)
    }

    pub fn assignment(&self) -> Constraints<'a>
        ensures { result ≡ self.now.assignment }
    {
        Constraints::lent(self.bytes, word(self.bytes, 20) as usize, 1276)
    }
}
