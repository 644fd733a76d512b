//! The names of segments: ten decimal digits, the number of the first append. Where the files lie is not said
//! here.

ghost use Rattle.std.specs.Prelude.{◌≡◌, ◌<◌, ◌^◌, ℕ, IfSome, None};
ghost use Rattle.lang_log.specs.Names.{number_in, segment_name};

use base_types::Name;

/// How many digits a name has.
const DIGITS: usize = 10;

/// The name of the segment whose first append has this number.
pub fn segment_name(first: u32) -> Name
    ensures { result ≡ segment_name first }
{
    let mut digits = [b'0'; DIGITS];
    let mut rest = first;
    let mut place = DIGITS;
    while 0 < place {
        place -= 1;
        digits[place] = b'0' + (rest % 10) as u8;
        rest /= 10;
    }
    Name::new(&digits).unwrap()
}

/// The number whose segment has this name, if there is one.
pub fn first_of(name: &Name) -> Option<u32>
    ensures found { IfSome result (λ first. name.now ≡ segment_name first) }
    ensures none { result ≡ None → (first : ℕ) → first < 2 ^ 32 → name.now ≡ segment_name first → ⊥ }
{
    let first = number_in(name.as_bytes())?;
    if segment_name(first) == *name {
        return Some(first);
    }
    None
}

/// The number that these bytes write, were they digits, if it has 32 bits.
fn number_in(bytes: &[u8]) -> Option<u32>
    ensures found { IfSome result (λ number. number ≡ number_in 0 bytes.now) }
    ensures none { result ≡ None → number_in 0 bytes.now < 2 ^ 32 → ⊥ }
{
    let mut number: u64 = 0;
    for byte in bytes {
        number = 10 * number + u64::from(byte.saturating_sub(b'0'));
        if u64::from(u32::MAX) < number {
            return None;
        }
    }
    u32::try_from(number).ok()
}

/// Two numbers of one name are one number.
#[tactic(auto, using(crate::proofs::Digits::names_tell))]
pub fn names_tell_numbers_apart()
    ensures { (n m : ℕ) → n < 2 ^ 32 → m < 2 ^ 32 → segment_name n ≡ segment_name m → n ≡ m }
{}
