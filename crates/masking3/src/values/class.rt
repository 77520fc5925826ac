//! The classes of values that two runs of one script never share, and the items that belong to them.

ghost use Rattle.std.specs.Prelude.{◌≡◌, ◌≢◌, MatchOption};
ghost use Rattle.masking3.specs.Classes.{class_in_wcc, class_of_fixed, class_of_group, class_of_hyper, class_of_word, position, row, zero_stays};

use crate::values::spot::ItemSpot;
use crate::values::ways::Way;

/// A class of what two runs of one script never share: of values, of names, or of bodies.
#[derive(Clone, Copy, Debug, PartialEq, Eq)]
pub enum Class {
    /// The times of files, in attributes, guards and settings (`nfstime3`, RFC 1813).
    Times,
    /// The stamps of AUTH_SYS credentials (RFC 5531, appendix A).
    Stamps,
    /// The names of machines in AUTH_SYS credentials (RFC 5531, appendix A), and of hosts in DUMP's results
    /// (RFC 1813, section 5.2.2).
    Machines,
    /// The counts of free space (RFC 1813, section 3.3.18), and the space that a file uses (`fattr3`).
    Space,
    /// The ids of files (`fileid3`, RFC 1813).
    Ids,
    /// The ids of file systems (`fsid` of `fattr3`, RFC 1813).
    Fsids,
    /// The cookies of directories (RFC 1813, section 3.3.16).
    Cookies,
    /// The verifiers of cookies (RFC 1813, section 3.3.16).
    CookieVerifiers,
    /// The verifiers of exclusive creates (RFC 1813, section 3.3.8).
    CreateVerifiers,
    /// The users and groups of attributes, settings and AUTH_SYS credentials, with their lists of groups.
    Owners,
    /// What a reply says of sizes and counts of links that others may change meanwhile: in weak cache
    /// consistency data (`wcc_data`, RFC 1813), and of directories.
    Wcc,
    /// The names of files that a Linux client removed while they were open: `.nfs` and 24 lower-case
    /// hexadecimal digits, where a file has its name (RFC 1813, sections 3.3.3 to 3.3.17).
    SillyNames,
    /// The arguments and results of other programs and versions, which are not looked into.
    Raw,
}

/// Every class, in order.
pub const CLASSES: [Class; 13] = [
    Class::Times,
    Class::Stamps,
    Class::Machines,
    Class::Space,
    Class::Ids,
    Class::Fsids,
    Class::Cookies,
    Class::CookieVerifiers,
    Class::CreateVerifiers,
    Class::Owners,
    Class::Wcc,
    Class::SillyNames,
    Class::Raw,
];

/// How many classes there are.
pub(crate) const COUNT: usize = CLASSES.len();

impl Class {
    /// Returns the class's row: its name, and what becomes of its values in the usual mask.
    fn row(self) -> (&'static str, Way)
        ensures name { result.0.now ≡ (row self).name }
        ensures usual { result.1 ≡ (row self).usual }
    {
        match self {
            Class::Times => ("times", Way::Zero),
            Class::Stamps => ("stamps", Way::Zero),
            Class::Machines => ("machines", Way::Zero),
            Class::Space => ("space", Way::Zero),
            Class::Ids => ("ids", Way::Number),
            Class::Fsids => ("fsids", Way::Number),
            Class::Cookies => ("cookies", Way::Number),
            Class::CookieVerifiers => ("cookieverfs", Way::Number),
            Class::CreateVerifiers => ("createverfs", Way::Number),
            Class::Owners => ("owners", Way::Keep),
            Class::Wcc => ("wcc", Way::Keep),
            Class::SillyNames => ("sillynames", Way::Zero),
            Class::Raw => ("raw", Way::Keep),
        }
    }

    /// Returns the name of the class on a command line.
    pub fn name(self) -> &'static str
        ensures { result.now ≡ (row self).name }
    {
        self.row().0
    }

    /// Returns what becomes of its values in the usual mask.
    pub fn usual(self) -> Way
        ensures { result ≡ (row self).usual }
    {
        self.row().1
    }

    /// Returns the class of this name.
    pub fn by_name(name: &str) -> Option<Class>
        ensures { MatchOption result ((class : Class) → name.now ≢ (row class).name)
            (λ class. name.now ≡ (row class).name) }
    {
        for class in CLASSES {
            if class.name() == name {
                return Some(class);
            }
        }
        None
    }

    /// Returns whether 0 has a meaning of its own (RFC 1813, section 3.3.16).
    pub(crate) fn zero_stays(self) -> bool
        ensures { result ≡ zero_stays self }
    {
        matches!(self, Class::Cookies | Class::CookieVerifiers)
    }

    /// Returns its place among the classes, from 0.
    #[inline(always)]
    pub(crate) fn position(self) -> usize
        ensures { result ≡ position self }
    {
        self as usize
    }
}

/// Returns the class of a word `group`. In a reply it tells whether a group of an export follows.
fn class_of_group(spot: ItemSpot) -> Option<Class>
    ensures { result ≡ class_of_group spot }
{
    match spot {
        ItemSpot::InCall => Some(Class::Owners),
        ItemSpot::InReply | ItemSpot::InDirectory | ItemSpot::InWcc => None,
    }
}

/// Returns the class of a size, or of a count of links.
pub(crate) fn class_in_wcc(spot: ItemSpot) -> Option<Class>
    ensures { result ≡ class_in_wcc spot }
{
    match spot {
        ItemSpot::InDirectory | ItemSpot::InWcc => Some(Class::Wcc),
        ItemSpot::InCall | ItemSpot::InReply => None,
    }
}

/// Returns the class of a word of this name.
#[tactic(auto, unfolding(xdr3::specs::Item::called))]
pub(crate) fn class_of_word(spot: ItemSpot, name: &str) -> Option<Class>
    ensures { result ≡ class_of_word spot name.now }
{
    match name {
        "atime_sec" | "atime_nsec" | "mtime_sec" | "mtime_nsec" | "ctime_sec" | "ctime_nsec" => {
            Some(Class::Times)
        }
        "stamp" => Some(Class::Stamps),
        "invarsec" => Some(Class::Space),
        "uid" | "gid" => Some(Class::Owners),
        "group" => class_of_group(spot),
        "nlink" => class_in_wcc(spot),
        _ => None,
    }
}

/// Returns the class of a number of eight bytes of this name.
#[tactic(auto, unfolding(xdr3::specs::Item::called))]
pub(crate) fn class_of_hyper(spot: ItemSpot, name: &str) -> Option<Class>
    ensures { result ≡ class_of_hyper spot name.now }
{
    match name {
        "used" | "tbytes" | "fbytes" | "abytes" | "tfiles" | "ffiles" | "afiles" => {
            Some(Class::Space)
        }
        "fileid" => Some(Class::Ids),
        "fsid" => Some(Class::Fsids),
        "cookie" => Some(Class::Cookies),
        "size" => class_in_wcc(spot),
        _ => None,
    }
}

/// Returns the class of eight bytes of this name.
#[tactic(auto, unfolding(xdr3::specs::Item::called))]
pub(crate) fn class_of_fixed(name: &str) -> Option<Class>
    ensures { result ≡ class_of_fixed name.now }
{
    match name {
        "cookieverf" => Some(Class::CookieVerifiers),
        "createverf" => Some(Class::CreateVerifiers),
        _ => None,
    }
}
