//! The hashers of a masked form's tables.

use masking3::MaskHashers;
use program3::SecretHasher;
use std::io;

/// Returns the hashers of a masked form's tables, whose keys nobody who writes a capture can know.
///
/// # Errors
///
/// That of the system if it gives no random bytes.
pub fn mask_hashers(rt: &HostRuntime) -> io::Result<MaskHashers<SecretHasher>> {
    Ok(MaskHashers {
        calls: SecretHasher::new(rt)?,
        handles: SecretHasher::new(rt)?,
        values: SecretHasher::new(rt)?,
    })
}
