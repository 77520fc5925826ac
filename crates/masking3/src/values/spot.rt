//! Where an item stands in its message, as far as its class depends on that.

ghost use Rattle.std.specs.Prelude.{◌≡◌};
ghost use Rattle.xdr3.specs.Item.{Word};
ghost use Rattle.masking3.specs.Classes.{class_of_word};
ghost use Rattle.masking3.specs.Spots.{after_word, next_spot};
ghost use Rattle.masking3.specs.machinery.MessageSpot.{first_spot, side_by};

use crate::values::class::Class;

/// Where an item stands in its message.
#[derive(Clone, Copy, Debug, PartialEq, Eq)]
pub enum ItemSpot {
    /// In a call.
    InCall,
    /// In a reply, at none of the following.
    InReply,
    /// In a reply, in the attributes of a directory, or after them.
    InDirectory,
    /// In a reply, in wcc_data (RFC 1813), or after it.
    InWcc,
}

impl ItemSpot {
    /// Returns the spot of what follows a word of this name.
    pub(crate) fn next(self, name: &str, n: u32) -> ItemSpot
        ensures { result ≡ next_spot self (Word name.now n) }
    {
        match self {
            ItemSpot::InCall => ItemSpot::InCall,
            ItemSpot::InReply => after_word(ItemSpot::InReply, name, n),
            ItemSpot::InDirectory => after_word(ItemSpot::InDirectory, name, n),
            ItemSpot::InWcc => ItemSpot::InWcc,
        }
    }
}

/// Returns the spot of what follows a word of this name, in a reply and in no wcc_data.
#[tactic(auto, unfolding(xdr3::specs::Item::called))]
fn after_word(spot: ItemSpot, name: &str, n: u32) -> ItemSpot
    ensures { result ≡ after_word spot name.now n }
{
    match name {
        "before" => ItemSpot::InWcc,
        "type" if n == 2 => ItemSpot::InDirectory,
        "type" => ItemSpot::InReply,
        _ => spot,
    }
}

/// Returns the spot of what follows a word of this name. A word that has a class leaves the spot as it is.
pub(crate) fn spot_after(spot: ItemSpot, class: Option<Class>, name: &str, n: u32) -> ItemSpot
    requires { class ≡ class_of_word spot name.now }
    ensures { result ≡ next_spot spot (Word name.now n) }
{
    match class {
        Some(_) => spot,
        None => spot.next(name, n),
    }
}

/// Returns the spot of the first item of a message.
pub(crate) fn first_spot(is_reply: bool) -> ItemSpot
    ensures { result ≡ first_spot (side_by is_reply) }
{
    if is_reply {
        ItemSpot::InReply
    } else {
        ItemSpot::InCall
    }
}
