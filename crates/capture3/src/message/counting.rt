//! How the xids of a connection count up.

ghost use Rattle.std.specs.Prelude.{◌≡◌};
ghost use Rattle.capture3.specs.machinery.Calls.{home_of};

/// A client mostly counts its xids up by one, either as words or with their bytes in the other
/// order, as a little-endian host keeps them.
#[derive(Clone, Copy)]
pub(crate) struct XidCounting {
    // The first xid, in the order of bytes in which the xids count.
    first: u32,
    swapped: bool,
}

impl XidCounting {
    /// Counts from this xid on.
    pub(crate) fn from(xid: u32, swapped: bool) -> XidCounting
        ensures { home_of result xid ≡ 0 }
    {
        let first = if swapped { xid.swap_bytes() } else { xid };
        XidCounting { first, swapped }
    }

    /// Returns the xid from which it counts.
    pub(crate) fn first_xid(self) -> u32
        ensures { home_of self result ≡ 0 }
    {
        if self.swapped {
            self.first.swap_bytes()
        } else {
            self.first
        }
    }

    /// Returns how far the xid is above the first, where it belongs.
    #[inline(always)]
    pub(crate) fn home(self, xid: u32) -> usize
        ensures { result ≡ home_of self xid }
    {
        let number = if self.swapped { xid.swap_bytes() } else { xid };
        number.wrapping_sub(self.first) as usize
    }
}
