//! A set of bytes in the form that its number of members has.

ghost use Rattle.std.specs.Prelude.{◌≡◌, ◌≤◌, [], length};
ghost use Rattle.judy_bits.specs.ByteSets as set;
ghost use Rattle.judy_bits.specs.ByteSets.{IsByteSet};
ghost use Rattle.judy_bits.specs.Forms.{form_of};
ghost use Rattle.judy_bits.specs.KeptMembers.{members_in, IsInForm};

use crate::bits256::Bits256;
use crate::few_bytes::FewBytes;
use crate::form::SetForm;
use crate::fronts::Fronts;
use std::marker::Model;

/// The members, in one of the three forms. Beside bits stand the counts by which a place is found.
#[derive(Clone, Debug, Drop)]
enum Members {
    Linear(FewBytes),
    Bitmap(Fronts, Bits256),
    Full(Fronts, Bits256),
}

/// A set of bytes. Its form follows from the number of its members alone, so a set that grew and shrank is the
/// set that never grew.
#[derive(Clone, Debug, Drop)]
pub struct ByteSet {
    members: Members,
}

const _: () = prove!(size_of::<ByteSet>() <= 40);

impl Model for ByteSet {
    ghost use Rattle.std.specs.Prelude.{ℕ, List};

    ghost Value = { List ℕ };

    ghost use Rattle.judy_bits.specs.KeptMembers.{members_in, IsInForm};

    ghost view = { λ a. members_in a.members };

    ghost invariant = { λ a. IsInForm a.members };
}

impl ByteSet {
    /// The empty set.
    pub fn new() -> ByteSet
        ensures { result ≡ [] }
    {
        ByteSet {
            members: Members::Linear(FewBytes::new()),
        }
    }

    /// The set of the members of bits: of many bytes made at once, since the form is looked for once.
    pub fn of_bits(bits: Bits256) -> ByteSet
        ensures { result ≡ bits }
    {
        ByteSet {
            members: in_form(bits),
        }
    }

    /// How many members there are.
    pub fn len(&self) -> usize
        ensures count { result ≡ length self.now }
        ensures within { result ≤ 256 }
        ensures is_set { IsByteSet self.now }
    {
        match &self.members {
            Members::Linear(few) => few.len(),
            Members::Bitmap(_, bits) => bits.len(),
            Members::Full(_, bits) => bits.len(),
        }
    }

    /// The form, by the number of members.
    pub fn form(&self) -> SetForm
        ensures { result ≡ form_of (length self.now) }
    {
        match &self.members {
            Members::Linear(_) => SetForm::Linear,
            Members::Bitmap(_, _) => SetForm::Bitmap,
            Members::Full(_, _) => SetForm::Full,
        }
    }

    /// The place of a member, which is the number of members below it; none where the byte isn't a member.
    // On the way of each look-up, a level at a time: a call would cost as much as the count.
    #[inline(always)]
    pub fn place(&self, byte: u8) -> Option<usize>
        ensures { result ≡ set.place self.now byte }
    {
        match &self.members {
            Members::Linear(few) => few.place(byte),
            Members::Bitmap(fronts, bits) | Members::Full(fronts, bits) => fronts.place(bits, byte),
        }
    }

    /// How many members are below the byte.
    // A call, since the ways down ask it of a byte without a child alone: compiled into them it costs each step some
    // instructions.
    #[inline(never)]
    pub fn rank(&self, byte: u8) -> usize
        ensures { result ≡ set.rank self.now byte }
    {
        match &self.members {
            Members::Linear(few) => few.rank(byte),
            Members::Bitmap(fronts, bits) | Members::Full(fronts, bits) => fronts.rank(bits, byte),
        }
    }

    /// The nearest member at or above the byte; none where all are below.
    pub fn next_from(&self, byte: u8) -> Option<u8>
        ensures { result ≡ set.next_from self.now byte }
    {
        match &self.members {
            Members::Linear(few) => few.next_from(byte),
            Members::Bitmap(_, bits) => bits.by_ref().next_from(byte),
            Members::Full(_, bits) => bits.by_ref().next_from(byte),
        }
    }

    /// The nearest member at or below the byte; none where all are above.
    pub fn prev_from(&self, byte: u8) -> Option<u8>
        ensures { result ≡ set.prev_from self.now byte }
    {
        match &self.members {
            Members::Linear(few) => few.prev_from(byte),
            Members::Bitmap(_, bits) => bits.by_ref().prev_from(byte),
            Members::Full(_, bits) => bits.by_ref().prev_from(byte),
        }
    }

    /// The member at a place, counted from 0; none from the number of members on.
    pub fn nth(&self, at: usize) -> Option<u8>
        ensures { result ≡ set.nth self.now at }
    {
        match &self.members {
            Members::Linear(few) => few.nth(at),
            Members::Bitmap(_, bits) => bits.by_ref().nth(at),
            Members::Full(_, bits) => bits.by_ref().nth(at),
        }
    }

    /// Makes the byte a member; one that is a member changes nothing.
    pub fn add(&mut self, byte: u8)
        ensures { self.new ≡ set.with_byte self.old byte }
    {
        add_to(&mut self.members, byte);
    }

    /// Takes the byte out; a byte that is no member changes nothing.
    pub fn take(&mut self, byte: u8)
        ensures { self.new ≡ set.without_byte self.old byte }
    {
        take_from(&mut self.members, byte);
    }
}

/// Makes a byte a member. The members change where they stand, and are moved only where their number asks for another
/// form.
fn add_to(members: &mut Members, byte: u8)
    requires { IsInForm members.old }
    ensures value { members_in members.new ≡ set.with_byte (members_in members.old) byte }
    ensures in_form { IsInForm members.new }
{
    match members {
        Members::Linear(few) => {
            if few.len() < 7 {
                few.add(byte);
            } else {
                *members = bits_with(few.to_bits(), byte);
            }
        }
        Members::Bitmap(fronts, bits) => {
            if bits.len() < 127 {
                bits.add(byte);
                *fronts = Fronts::of(bits);
            } else {
                *members = bits_with(Bits256::of_words(bits.words()), byte);
            }
        }
        Members::Full(fronts, bits) => {
            bits.law();
            bits.add(byte);
            *fronts = Fronts::of(bits);
        }
    }
}

/// Takes a byte out, where it is a member. The members change where they stand, as in `add_to`.
fn take_from(members: &mut Members, byte: u8)
    requires { IsInForm members.old }
    ensures value { members_in members.new ≡ set.without_byte (members_in members.old) byte }
    ensures in_form { IsInForm members.new }
{
    match members {
        Members::Linear(few) => few.take(byte),
        Members::Bitmap(fronts, bits) => {
            if bits.len() > 8 {
                bits.take(byte);
                *fronts = Fronts::of(bits);
            } else {
                *members = bits_without(Bits256::of_words(bits.words()), byte);
            }
        }
        Members::Full(fronts, bits) => {
            if bits.len() > 128 {
                bits.take(byte);
                *fronts = Fronts::of(bits);
            } else {
                *members = bits_without(Bits256::of_words(bits.words()), byte);
            }
        }
    }
}

/// Members as bits with a byte.
fn bits_with(mut bits: Bits256, byte: u8) -> Members
    ensures value { members_in result ≡ set.with_byte bits byte }
    ensures in_form { IsInForm result }
{
    bits.add(byte);
    in_form(bits)
}

/// Members as bits without a byte.
fn bits_without(mut bits: Bits256, byte: u8) -> Members
    ensures value { members_in result ≡ set.without_byte bits byte }
    ensures in_form { IsInForm result }
{
    bits.take(byte);
    in_form(bits)
}

/// The members in the form for their number.
fn in_form(bits: Bits256) -> Members
    ensures value { members_in result ≡ bits }
    ensures in_form { IsInForm result }
{
    let count = bits.len();
    if count <= 7 {
        Members::Linear(few_of(&bits))
    } else if count <= 127 {
        Members::Bitmap(Fronts::of(&bits), bits)
    } else {
        Members::Full(Fronts::of(&bits), bits)
    }
}

/// At most seven members of bits, as a list.
fn few_of(bits: &Bits256) -> FewBytes
    requires { length bits.now ≤ 7 }
    ensures { result ≡ bits.now }
{
    let mut few = FewBytes::new();
    for at in 0..bits.len() {
        let Some(byte) = bits.by_ref().nth(at) else {
            unreachable!()
        };
        few.add(byte);
    }
    few
}
