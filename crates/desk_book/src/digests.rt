//! Digests in hexadecimal digits.

ghost use Rattle.std.specs.Prelude.{◌≡◌, ◌++◌, length};
ghost use Rattle.desk_book.specs.Digests.{commit, sha_digits};
ghost use Rattle.hex.specs.Hex.{encode_lower};

use hex::encode_to_slice;
use sha2::{Digest, Sha256};

// The digits of 32 bytes.
fn digits_of(bytes: [u8; 32]) -> [u8; 64]
    ensures { result ≡ encode_lower bytes }
{
    let mut digits = [0u8; 64];
    match encode_to_slice(bytes, &mut digits) {
        Ok(()) => digits,
        Err(_) => unreachable!(),
    }
}

/// The digits of the SHA-256 of these bytes.
pub fn digest_of(bytes: &[u8]) -> [u8; 64]
    ensures { result ≡ sha_digits bytes.now }
{
    digits_of(Sha256::digest(bytes))
}

/// The digits of the SHA-256 of two pieces, one after the other.
pub(crate) fn digest_of_both(first: &[u8], second: &[u8]) -> [u8; 64]
    ensures { result ≡ sha_digits (first.now ++ second.now) }
{
    let mut hasher = Sha256::new();
    hasher.update(first);
    hasher.update(second);
    digits_of(hasher.finalize())
}

/// The commitment to a text: the digest of the salt's digits and the digits of the text's digest.
pub fn commit_of(salt: &[u8; 64], text: &[u8]) -> [u8; 64]
    ensures { result ≡ commit salt.now text.now }
{
    let digest = digest_of(text);
    digest_of_both(salt, &digest)
}
