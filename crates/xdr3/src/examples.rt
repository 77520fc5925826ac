//! A file worked by hand. The function ensures what the definitions say of its bytes, and its proof
//! computes it.

ghost use Rattle.xdr3.specs.Examples.{File};

/// The file of RFC 4506, section 7, its cuts and its faults.
pub fn file()
    ensures { File }
{}
