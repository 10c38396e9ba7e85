//! The members that have names of their own.
ghost use Rattle.std.specs.Prelude.{◌≡◌, ◌<◌, length, slice_index};
ghost use Rattle.ivm_text.specs.Keys.{is_key};
ghost use Rattle.js_members.specs.Reads.{member_name};

use ivm_text::Units;

/// A member that some kind of value has under this name.
#[derive(Debug, Clone, Copy, PartialEq, Eq)]
pub enum MemberName {
    /// `length`
    Length,
    /// `push`
    Push,
    /// `pop`
    Pop,
    /// `name`
    Name,
    /// `message`
    Message,
}

/// The unit at a place of a key.
fn unit_at(key: &Units, place: usize) -> u16
    requires { place < length key.now }
    ensures { result ≡ slice_index key.now place }
{
    key.get(place).unwrap()
}

/// Whether a key or a name has the units of an ASCII text. It takes no memory.
pub fn is_named(key: &Units, name: &[u8]) -> bool
    ensures { result ≡ is_key key.now name.now }
{
    if key.len() != name.len() {
        return false;
    }
    for place in 0..name.len() {
        if unit_at(key, place) != name[place] as u16 {
            return false;
        }
    }
    true
}

/// The member that a key names; none for all other keys.
#[tactic(auto, unfolding(crate::specs::Reads::member_name))]
pub(crate) fn member_name(key: &Units) -> Option<MemberName>
    ensures { result ≡ member_name key.now }
{
    if is_named(key, b"length") {
        Some(MemberName::Length)
    } else if is_named(key, b"push") {
        Some(MemberName::Push)
    } else if is_named(key, b"pop") {
        Some(MemberName::Pop)
    } else if is_named(key, b"name") {
        Some(MemberName::Name)
    } else if is_named(key, b"message") {
        Some(MemberName::Message)
    } else {
        None
    }
}
