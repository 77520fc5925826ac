//! Parts of MOUNT version 3, passed to a visitor as they are read (RFC 1813, section 5).
#![tactic(auto, using(xdr3::proofs::Lemmas::Scans::ScanLemmas::scans), unfolding(crate::specs::Shapes::flavor, crate::specs::Shapes::mount_ok, crate::specs::Shapes::mounted, crate::specs::Shapes::group, crate::specs::Shapes::export, xdr3::specs::Item::called))]

ghost use Rattle.std.specs.Prelude.{IfErr, OnOk};
ghost use Rattle.xdr3.specs.Item.{Text};
ghost use Rattle.xdr3.specs.Scan.{Scans, Stops};
ghost use Rattle.xdr3.specs.Named.{linked};
ghost use Rattle.xdr3.specs.Shape.{opaque};

use crate::values::handle::Handle;
use crate::values::mount3::{Export, Exports, Flavor, Group, MountList, MountOk, Mounted};
use xdr3::{GetError, Input, Scan, Visit, scan_counted, scan_linked, scan_text, scan_word};

/// Reads and visits a path of at most 1,024 bytes (RFC 1813, section 5.1.4).
#[inline]
pub fn scan_path<V: Visit>(
    name: &'static str,
    input: &mut Input,
    visitor: &mut V,
) -> Result<(), GetError>
    ensures ok { OnOk result
        (Scans V.stands (opaque Text name.now 1024)
        (input.old, visitor.old) (input.new, visitor.new)) }
    ensures err { IfErr result (λ error. Stops (opaque Text name.now 1024) input.old error) }
{
    scan_text(name, 1024, input, visitor)
}

impl Scan for Flavor {
    ghost use Rattle.nfs3_types.specs.Shapes.{flavor};

    ghost shape = { flavor };

    #[inline]
    fn scan<V: Visit>(input: &mut Input, visitor: &mut V) -> Result<(), GetError> {
        scan_word("flavor", input, visitor)?;
        Ok(())
    }
}

impl Scan for MountOk {
    ghost use Rattle.nfs3_types.specs.Shapes.{mount_ok};

    ghost shape = { mount_ok };

    fn scan<V: Visit>(input: &mut Input, visitor: &mut V) -> Result<(), GetError> {
        Handle::scan(input, visitor)?;
        scan_counted::<Flavor, V>("flavors", u32::MAX, input, visitor)
    }
}

impl<'a> Scan for Mounted<'a> {
    ghost use Rattle.nfs3_types.specs.Shapes.{mounted};

    ghost shape = { mounted };

    fn scan<V: Visit>(input: &mut Input, visitor: &mut V) -> Result<(), GetError>
        ensures ok { OnOk result
            (Scans V.stands mounted (input.old, visitor.old) (input.new, visitor.new)) }
        ensures err { IfErr result (λ error. Stops mounted input.old error) }
    {
        scan_text("hostname", 255, input, visitor)?;
        scan_path("directory", input, visitor)
    }
}

impl<'a> Scan for MountList<'a> {
    ghost use Rattle.nfs3_types.specs.Shapes.{mounted};

    ghost shape = { linked "entry" mounted };

    fn scan<V: Visit>(input: &mut Input, visitor: &mut V) -> Result<(), GetError>
        ensures ok { OnOk result
            (Scans V.stands (linked "entry" mounted)
            (input.old, visitor.old) (input.new, visitor.new)) }
        ensures err { IfErr result
            (λ error. Stops (linked "entry" mounted) input.old error) }
    {
        scan_linked::<Mounted, V>("entry", input, visitor)
    }
}

impl<'a> Scan for Group<'a> {
    ghost use Rattle.nfs3_types.specs.Shapes.{group};

    ghost shape = { group };

    fn scan<V: Visit>(input: &mut Input, visitor: &mut V) -> Result<(), GetError>
        ensures ok { OnOk result
            (Scans V.stands group (input.old, visitor.old) (input.new, visitor.new)) }
        ensures err { IfErr result (λ error. Stops group input.old error) }
    {
        scan_text("name", 255, input, visitor)
    }
}

impl<'a> Scan for Export<'a> {
    ghost use Rattle.nfs3_types.specs.Shapes.{export};

    ghost shape = { export };

    fn scan<V: Visit>(input: &mut Input, visitor: &mut V) -> Result<(), GetError>
        ensures ok { OnOk result
            (Scans V.stands export (input.old, visitor.old) (input.new, visitor.new)) }
        ensures err { IfErr result (λ error. Stops export input.old error) }
    {
        scan_path("directory", input, visitor)?;
        scan_linked::<Group, V>("group", input, visitor)
    }
}

impl<'a> Scan for Exports<'a> {
    ghost use Rattle.nfs3_types.specs.Shapes.{export};

    ghost shape = { linked "entry" export };

    fn scan<V: Visit>(input: &mut Input, visitor: &mut V) -> Result<(), GetError>
        ensures ok { OnOk result
            (Scans V.stands (linked "entry" export)
            (input.old, visitor.old) (input.new, visitor.new)) }
        ensures err { IfErr result
            (λ error. Stops (linked "entry" export) input.old error) }
    {
        scan_linked::<Export, V>("entry", input, visitor)
    }
}
