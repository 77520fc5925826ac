//! Messages worked by hand. The function ensures what the definitions say of some entries, and its proof
//! computes it.

ghost use Rattle.masking3.specs.Examples.{MasksGetattrs};

/// Three GETATTR replies: times and space are 0, and ids of files and of file systems are numbered apart.
pub fn getattr_replies()
    ensures { MasksGetattrs }
{}
