//! Results by their status, passed to a visitor as they are read (RFC 1813).

ghost use Rattle.xdr3.specs.Scan.{Scans};

use crate::values::status::Res;
use xdr3::{GetError, Input, Scan, Visit, scan_listed};

const STATUSES: [u32; 29] = [
    0, 1, 2, 5, 6, 13, 17, 18, 19, 20, 21, 22, 27, 28, 30, 31, 63, 66, 69, 70, 71, 10_001, 10_002,
    10_003, 10_004, 10_005, 10_006, 10_007, 10_008,
];

impl<T: Scan, F: Scan> Scan for Res<T, F> {
    ghost use Rattle.nfs3_types.specs.Shapes.{results};

    ghost shape = { results T.shape F.shape };

    #[tactic(auto, using(xdr3::proofs::Lemmas::Scans::ScanLemmas::scans), unfolding(crate::specs::Shapes::results, xdr3::specs::Item::called))]
    fn scan<V: Visit>(input: &mut Input, visitor: &mut V) -> Result<(), GetError> {
        if scan_listed("status", &STATUSES, input, visitor)? == 0 {
            T::scan(input, visitor)
        } else {
            F::scan(input, visitor)
        }
    }
}
