// The name of an automatic module: derived from the name of its jar, or given by the jar's manifest.
ghost use Rattle.std.specs.Prelude.{◌≡◌, ◌≤◌, length};
ghost use Rattle.records.specs.Automatic.{is_digit, is_letter, is_alphanumeric, is_start, file_name, without_jar, without_version, trimmed, dotted, is_module_name, text_of, derived_text};

use crate::bytes::{byte, head, tail};
use crate::error::ModuleError;

// A name of at most 255 bytes: the first len bytes; those past it are 0.
#[derive(Clone, Copy)]
pub struct Text {
    pub bytes: [u8; 255],
    pub len: usize,
}

// Whether x is an ASCII digit.
#[tactic(auto, unfolding(crate::specs::Automatic::is_digit))]
pub fn is_digit(x: usize) -> bool
    ensures { result ≡ is_digit x }
{
    48 <= x && x <= 57
}

// Whether x is an ASCII letter.
#[tactic(auto, unfolding(crate::specs::Automatic::is_letter))]
fn is_letter(x: usize) -> bool
    ensures { result ≡ is_letter x }
{
    65 <= x && x <= 90 || 97 <= x && x <= 122
}

// Whether x is an ASCII letter or digit.
#[tactic(auto, unfolding(crate::specs::Automatic::is_alphanumeric))]
pub fn is_alphanumeric(x: usize) -> bool
    ensures { result ≡ is_alphanumeric x }
{
    is_letter(x) || is_digit(x)
}

// Whether x may start a part of a module name: an ASCII letter, `_` or `$`.
#[tactic(auto, unfolding(crate::specs::Automatic::is_start))]
pub fn is_start(x: usize) -> bool
    ensures { result ≡ is_start x }
{
    is_letter(x) || x == 95 || x == 36
}

// What follows the last `/`.
#[tactic(auto, using(crate::proofs::automatic::Derivation::file_laws))]
pub fn file_name(s: &[u8]) -> &[u8]
    ensures { result.now ≡ file_name s.now }
{
    for i in (0..s.len()).rev() {
        if s[i] == b'/' {
            return tail(s, i + 1);
        }
    }
    s
}

// s without one final `.jar`.
pub fn without_jar(s: &[u8]) -> &[u8]
    ensures { result.now ≡ without_jar s.now }
{
    s.strip_suffix(b".jar").unwrap_or(s)
}

// s cut at the last hyphen that a digit follows.
#[tactic(auto, using(crate::proofs::automatic::Derivation::version_laws))]
pub fn strip_version_suffix(s: &[u8]) -> &[u8]
    ensures { result.now ≡ without_version s.now }
{
    for i in (0..s.len()).rev() {
        if s[i] == b'-' && is_digit(byte(s, i + 1)) {
            return head(s, i);
        }
    }
    s
}

// The runs of letters and digits of s, joined by dots.
#[tactic(auto, using(crate::proofs::automatic::Dots::dots_laws))]
fn dotted_text(s: &[u8]) -> Text
    requires { length s.now ≤ 255 }
    ensures { result ≡ text_of (trimmed (dotted s.now)) }
{
    let mut bytes = [0u8; 255];
    let mut len: usize = 0;
    let mut gap = false;
    for i in 0..s.len() {
        let x = s[i];
        if is_alphanumeric(x as usize) {
            if gap {
                bytes[len] = b'.';
                len += 1;
            }
            bytes[len] = x;
            len += 1;
            gap = false;
        } else if 0 < len {
            gap = true;
        }
    }
    Text { bytes, len }
}

// Whether s is a module name: dot-separated parts, 255 bytes at most.
#[tactic(auto, using(crate::proofs::automatic::Parts::parts_laws))]
pub fn validate_module_name(s: &[u8]) -> bool
    ensures { result ≡ is_module_name s.now }
{
    if 255 < s.len() {
        return false;
    }
    let mut first = true;
    for i in 0..s.len() {
        let x = byte(s, i);
        if x == 46 {
            if first {
                return false;
            }
            first = true;
        } else if is_start(x) {
            first = false;
        } else if first || !is_digit(x) {
            return false;
        }
    }
    !first
}

// The name of the automatic module of a jar of this name, of 255 bytes at most. Nothing left is 9, a name that breaks the rule
// is 10.
#[tactic(auto, using(crate::proofs::automatic::JarNames::derive_laws))]
pub fn derive_automatic_module_name(jar: &[u8]) -> Result<Text, ModuleError>
    ensures { result ≡ derived_text jar.now }
{
    if 255 < jar.len() {
        return Err(ModuleError::TooLarge(0));
    }
    let base = without_jar(file_name(jar));
    if base.len() == 0 {
        return Err(ModuleError::InvalidAutomaticModuleName);
    }
    let text = dotted_text(strip_version_suffix(base));
    if text.len == 0 {
        return Err(ModuleError::InvalidAutomaticModuleName);
    }
    let bytes = text.bytes;
    if !validate_module_name(head(&bytes, text.len)) {
        return Err(ModuleError::InvalidModuleName);
    }
    Ok(text)
}
