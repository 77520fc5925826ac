//! A fast hasher with two secret words. How keys spread is not proved: it changes no result.

ghost use Rattle.std.specs.Prelude.{◌≡◌, ◌+◌, ◌≤◌, length};
ghost use Rattle.program3.specs.Hashing as hashing;

use capture3::Hashers;
use std::hash::{BuildHasher, Hasher};
use std::io;
use std::random::RandomSource;

/// 2^64 by the golden ratio, to the next odd number.
const SPREAD: u64 = 0x9E37_79B9_7F4A_7C15;

/// A hasher, and the builder of itself. It multiplies 16 bytes at a time to 128 bits, and joins the halves
/// by xor. Each factor contains a secret word, so who writes a capture cannot choose keys that collide.
/// It is no cryptographic hash: who learns the words can.
///
/// The result is multiplied once more, by a known word. Without that, keys that count up meet in the bits
/// that a table uses if a secret word has a bad form, as one with many low bits of 0.
#[derive(Clone, Copy)]
pub struct SecretHasher {
    state: u64,
    secret: u64,
}

impl SecretHasher {
    /// Returns a hasher with two random words.
    ///
    /// # Errors
    ///
    /// That of the system if it gives no random bytes.
    pub fn new(rt: &HostRuntime) -> io::Result<SecretHasher> {
        let mut bytes = [0; 16];
        rt.fill_bytes(&mut bytes)?;
        let words = u128::from_le_bytes(bytes);
        Ok(SecretHasher {
            state: (words & 0xFFFF_FFFF_FFFF_FFFF) as u64,
            secret: (words >> 64) as u64,
        })
    }
}

/// Returns the hashers of a capture's tables, whose keys nobody who writes a capture can know.
///
/// # Errors
///
/// That of the system if it gives no random bytes.
pub fn hashers(rt: &HostRuntime) -> io::Result<Hashers<SecretHasher>> {
    let calls = SecretHasher::new(rt)?;
    Ok(Hashers {
        calls,
        // No table of its own takes it.
        xids: calls,
        handles: SecretHasher::new(rt)?,
        verfs: SecretHasher::new(rt)?,
    })
}

impl BuildHasher for SecretHasher {
    type Hasher = SecretHasher;

    ghost build_hasher = { λ s. s };

    #[inline(always)]
    fn build_hasher(&self) -> SecretHasher {
        *self
    }
}

/// Returns the two halves of the product, joined by xor.
#[inline(always)]
fn folded_multiply(a: u64, b: u64) -> u64
    ensures { result ≡ hashing.folded_multiply a b }
{
    let product = a as u128 * b as u128;
    (product & 0xFFFF_FFFF_FFFF_FFFF) as u64 ^ (product >> 64) as u64
}

#[inline(always)]
fn read_u32(bytes: &[u8], at: usize) -> u64
    requires { at + 4 ≤ length bytes.now }
    ensures { result ≡ hashing.read_u32 bytes.now at }
{
    u32::from_le_bytes([bytes[at], bytes[at + 1], bytes[at + 2], bytes[at + 3]]) as u64
}

#[inline(always)]
fn read_u64(bytes: &[u8], at: usize) -> u64
    requires { at + 8 ≤ length bytes.now }
    ensures { result ≡ hashing.read_u64 bytes.now at }
{
    read_u32(bytes, at) | read_u32(bytes, at + 4) << 32
}

/// Returns up to 8 bytes as one number, by reads that may overlap.
#[inline(always)]
fn read_short(bytes: &[u8]) -> u64
    ensures { result ≡ hashing.read_short bytes.now }
{
    let len = bytes.len();
    if len > 4 {
        read_u32(bytes, 0) | read_u32(bytes, len - 4) << 32
    } else if len == 4 {
        read_u32(bytes, 0)
    } else if len > 0 {
        bytes[0] as u64 | (bytes[len / 2] as u64) << 8 | (bytes[len - 1] as u64) << 16
    } else {
        0
    }
}

impl Hasher for SecretHasher {
    ghost write = { hashing.write };

    ghost finish = { hashing.finish };

    #[inline(always)]
    fn finish(&self) -> u64 {
        folded_multiply(self.state, SPREAD)
    }

    #[inline(always)]
    fn write(&mut self, bytes: &[u8]) {
        let len = bytes.len();
        if len <= 8 {
            self.state = folded_multiply(
                self.state ^ read_short(bytes),
                self.secret ^ (2 * len as u64),
            );
            return;
        }
        let mut state = self.state.wrapping_add(len as u64);
        let mut at = 0;
        while len - at > 16 {
            state = folded_multiply(
                read_u64(bytes, at) ^ state,
                read_u64(bytes, at + 8) ^ self.secret,
            );
            at += 16;
        }
        self.state = folded_multiply(
            read_u64(bytes, len.saturating_sub(16)) ^ state,
            read_u64(bytes, len - 8) ^ self.secret,
        );
    }
}
