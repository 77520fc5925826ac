//! No data, as it is scanned.

ghost use Rattle.xdr3.specs.Scan.{Scans};

use crate::values::void::Void;
use xdr3::{GetError, Input, Scan, Visit};

impl Scan for Void {
    ghost use Rattle.xdr3.specs.Shape.{nothing};

    ghost shape = { nothing };

    #[tactic(auto, using(xdr3::proofs::Lemmas::Scans::ScanLemmas::scans))]
    fn scan<V: Visit>(input: &mut Input, _visitor: &mut V) -> Result<(), GetError> {
        // The prover concludes from this that the position is within the body.
        input.at();
        Ok(())
    }
}
